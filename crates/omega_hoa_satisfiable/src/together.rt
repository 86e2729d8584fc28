//! Whether two labels can be true together, judged as their conjunction would be, which is not made.

ghost use Rattle.std.specs.Prelude.{◌≡◌, ◌≤◌, ◌<◌, ◌↔◌, [], bit_and, false, length, IfErr, IfOk, IsTrue};
ghost use Rattle.omega_hoa_expression.specs.Limits.{most_depth, most_mentioned};
ghost use Rattle.omega_hoa_label.specs.Label.{conjunction, propositions};
ghost use Rattle.omega_hoa_satisfiable.specs.Satisfiable.{IsJudged, IsOverMentioned};
ghost use Rattle.omega_hoa_satisfiable.specs.Satisfiable.{IsSatisfiable, each_once, mentioned};
ghost use Rattle.omega_hoa_satisfiable.specs.private.Words.{peak, top_word, word_among, words_after};

use crate::mentioned::Mentioned;
use crate::satisfying::{blocks, mention, word_of};
use omega_hoa_label::{Label, LabelNode, ROOM};
use omega_text::{Refusal, TaskFault};

/// Whether some set of propositions makes both labels true. Refused with [TaskFault::TooManyPropositions] exactly if
/// they mention over `MOST_MENTIONED` together.
///
/// Takes no memory. At most 64 passes over both, one for each 64 sets of the propositions mentioned.
pub fn satisfiable_together(one: &Label, other: &Label) -> Result<bool, Refusal>
    ensures ok { IfOk result (λ possible. IsJudged (conjunction one.now other.now) possible) }
    ensures err { IfErr result (IsOverMentioned (conjunction one.now other.now)) }
{
    let mut found = Mentioned::new();
    if !mention_both(one, other, &mut found) {
        return Err(Refusal::Task(TaskFault::TooManyPropositions));
    }
    Ok(are_true_somewhere(one, other, &found))
}

/// Adds the propositions of both labels to `found`. Returns false if there is no room for one.
fn mention_both(one: &Label, other: &Label, found: &mut Mentioned) -> bool
    ensures added { IsTrue result →
        found.new ≡ each_once found.old (propositions (conjunction one.now other.now)) }
    ensures full { result ≡ false → most_mentioned
        < length (each_once found.old (propositions (conjunction one.now other.now))) }
{
    let has_room = mention(one, found);
    if !has_room {
        return false;
    }
    let has_room_too = mention(other, found);
    has_room_too
}

/// Whether both labels are true under some valuation of the propositions mentioned.
fn are_true_somewhere(one: &Label, other: &Label, found: &Mentioned) -> bool
    requires { found.now ≡ mentioned (conjunction one.now other.now) }
    ensures judged { IsTrue result ↔ IsSatisfiable (conjunction one.now other.now) }
    ensures within { length (mentioned (conjunction one.now other.now)) ≤ most_mentioned }
{
    let mut room = ROOM;
    let nodes = one.nodes(&mut room);
    let mut room_of_other = ROOM;
    let others = other.nodes(&mut room_of_other);
    for block in 0..blocks(found.len()) {
        if word_of_both(nodes, others, found, block) != 0 {
            return true;
        }
    }
    false
}

/// Returns the word of the conjunction of two labels, whose nodes are in postfix order, under the valuations of
/// `block`.
fn word_of_both(nodes: &[LabelNode], others: &[LabelNode], found: &Mentioned, block: u64) -> u64
    requires one { peak 0 nodes.now ≤ most_depth }
    requires other { peak 0 others.now ≤ most_depth }
    ensures { result ≡ bit_and (top_word (words_after (word_among block 0 found.now) [] nodes.now))
        (top_word (words_after (word_among block 0 found.now) [] others.now)) }
{
    word_of(nodes, found, block) & word_of(others, found, block)
}
