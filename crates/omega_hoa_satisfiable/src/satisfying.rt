//! Whether a label can be true, judged under all valuations of the propositions that it mentions.

ghost use Rattle.std.specs.Prelude.{◌≡◌, ◌≤◌, ◌-◌, ◌^◌, ◌↔◌, ◌<◌, [], false, length, IfErr, IfOk, IsTrue};
ghost use Rattle.omega_hoa_expression.specs.Limits.{most_depth, most_mentioned};
ghost use Rattle.omega_hoa_label.specs.Label.{propositions};
ghost use Rattle.omega_hoa_satisfiable.specs.Satisfiable.{IsJudged, IsOverMentioned};
ghost use Rattle.omega_hoa_satisfiable.specs.Satisfiable.{IsSatisfiable, each_once, mentioned};
ghost use Rattle.omega_hoa_satisfiable.specs.private.Words.{peak, top_word, word_among, words_after};

use crate::limits::MOST_STACKED;
use crate::mentioned::Mentioned;
use crate::words::Words;
use omega_hoa_label::{Label, LabelNode, MOST_IN_PLACE, ROOM};
use omega_text::{Refusal, TaskFault};

/// Whether some set of propositions makes `label` true. Refused with [TaskFault::TooManyPropositions] exactly if the
/// label mentions over `MOST_MENTIONED`.
///
/// Takes no memory. At most 64 passes over the label, one for each 64 sets of the propositions mentioned.
pub fn satisfiable(label: &Label) -> Result<bool, Refusal>
    ensures ok { IfOk result (λ possible. IsJudged label.now possible) }
    ensures err { IfErr result (IsOverMentioned label.now) }
{
    let mut found = Mentioned::new();
    if !mention(label, &mut found) {
        return Err(Refusal::Task(TaskFault::TooManyPropositions));
    }
    Ok(is_true_somewhere(label, &found))
}

/// Whether `label` mentions at most `MOST_MENTIONED` propositions, so that [`satisfiable`] judges it. Takes no memory.
pub fn is_narrow(label: &Label) -> bool
    ensures narrow { IsTrue result → length (mentioned label.now) ≤ most_mentioned }
    ensures wide { result ≡ false → most_mentioned < length (mentioned label.now) }
{
    let mut found = Mentioned::new();
    let has_room = mention(label, &mut found);
    // The set is read, since only then a proof knows that it has at most that many.
    let _count = found.len();
    has_room
}

/// Adds the propositions of `label` to `found`. Returns false if there is no room for one.
pub(crate) fn mention(label: &Label, found: &mut Mentioned) -> bool
    ensures added { IsTrue result → found.new ≡ each_once found.old (propositions label.now) }
    ensures full { result ≡ false
        → most_mentioned < length (each_once found.old (propositions label.now)) }
{
    let mut room = ROOM;
    let nodes = label.nodes(&mut room);
    for node in nodes {
        if let LabelNode::Proposition(number) = node {
            if !found.add(*number) {
                return false;
            }
        }
    }
    true
}

/// Whether `label` is true under some valuation of the propositions mentioned.
fn is_true_somewhere(label: &Label, found: &Mentioned) -> bool
    requires { found.now ≡ mentioned label.now }
    ensures judged { IsTrue result ↔ IsSatisfiable label.now }
    ensures within { length (mentioned label.now) ≤ most_mentioned }
{
    let mut room = ROOM;
    let nodes = label.nodes(&mut room);
    for block in 0..blocks(found.len()) {
        if word_of(nodes, found, block) != 0 {
            return true;
        }
    }
    false
}

/// Returns the number of blocks of 64 valuations of `count` propositions.
pub(crate) fn blocks(count: usize) -> u64
    requires { count ≤ most_mentioned }
    ensures { result ≡ 2 ^ (count - 6) }
{
    1 << count.saturating_sub(6)
}

/// Returns the word of `nodes` in postfix order under the valuations of `block`.
pub(crate) fn word_of(nodes: &[LabelNode], found: &Mentioned, block: u64) -> u64
    requires { peak 0 nodes.now ≤ most_depth }
    ensures { result ≡ top_word (words_after (word_among block 0 found.now) [] nodes.now) }
{
    // Few nodes need little room, and no more is made ready for them.
    if nodes.len() <= MOST_IN_PLACE {
        word_within::<MOST_IN_PLACE>(nodes, found, block)
    } else {
        word_within::<MOST_STACKED>(nodes, found, block)
    }
}

/// Returns the word of `nodes` as `word_of` does, if at most `MOST` words are on the stack at once.
fn word_within<const MOST: usize>(nodes: &[LabelNode], found: &Mentioned, block: u64) -> u64
    requires room { MOST ≤ most_depth }
    requires enough { peak 0 nodes.now ≤ MOST }
    ensures { result ≡ top_word (words_after (word_among block 0 found.now) [] nodes.now) }
{
    let mut words = Words::<MOST>::new();
    for node in nodes {
        match node {
            LabelNode::Constant(value) => words.push(if *value { u64::MAX } else { 0 }),
            LabelNode::Proposition(number) => words.push(found.word(block, *number)),
            LabelNode::Not => {
                let part = words.pop();
                words.push(part ^ u64::MAX);
            }
            LabelNode::And => {
                let right = words.pop();
                let left = words.pop();
                words.push(left & right);
            }
            LabelNode::Or => {
                let right = words.pop();
                let left = words.pop();
                words.push(left | right);
            }
            LabelNode::Alias(_) | LabelNode::Group => {}
        }
    }
    words.pop()
}
