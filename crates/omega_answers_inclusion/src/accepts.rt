ghost use Rattle.std.specs.Prelude.{◌≡◌, IfErr, IfOk, IsOkUnless};
ghost use Rattle.omega_lang_inclusion.specs.WordRefusing.{IsMembershipRefusal};
ghost use Rattle.omega_io.specs.Answer.{explained};
ghost use Rattle.omega_answers.specs.Choice.{IsRefusedFor};
ghost use Rattle.omega_answers_inclusion.specs.Accepts.{IsAcceptsAnswer, IsAcceptsRefused};
ghost use Rattle.omega_answers_inclusion.specs.Accepts.{IsMembershipVerdict, membership_answer};
ghost use Rattle.omega_answers_inclusion.specs.Example.{word_line};

use crate::word_and_automaton::{WordAndAutomaton, read_word_and_automaton};
use crate::word_line::append_word_line;
use omega_answers::{Answer, refused_for};
use omega_hoa_automaton::{Automaton, Refusal};
use omega_io::{Exit, Refused, Which};
use omega_lang_inclusion::{Membership, accepts};
use omega_lang_lasso_word::{LassoWord, SymbolicWord};
use std::alloc::Global;

/// Decides whether the automaton of `text` accepts each word that the letters of `word` admit. Propositions that have
/// one name are the same. Returns `yes` with [Exit::Done], else `no` with [Exit::No]. If `explain` is set, a line
/// `word` follows `no`: each word that fits it is admitted and not accepted.
///
/// The automaton is to be deterministic, or each letter of `word` is to fix each of its propositions: `!a & b` fixes
/// `a` and `b`, and `a | b` fixes neither. If no word is admitted, as by `cycle{a & !a}`, the answer is `yes`.
///
/// `word` is the text that a refusal calls the file, and `text` the one that it calls the input. Fails with the
/// [Refusal::Text] of `word`, or else with the [Refusal::Text] or [Refusal::Automaton] of `text`. Or else fails as
/// `accepts` of `omega_lang_inclusion` does. [TaskFault::NotDeterministic] is about `text`: it has a choice, and a
/// letter leaves a proposition of it open. [TaskFault::TooLarge], [TaskFault::TooManyPropositions] and
/// [TaskFault::UniversalBranch] are about neither.
pub fn accepts_text(
    alloc: Global,
    word: &[u8],
    text: &[u8],
    explain: bool,
) -> Result<(Exit, Vec<u8>), Refused>
    ensures answer { IfOk result
        (λ made. IsAcceptsAnswer word.now text.now explain made.0 made.1.items) }
    ensures refused { IfErr result (IsAcceptsRefused word.now text.now) }
{
    let read = read_word_and_automaton(alloc, word, text)?;
    let WordAndAutomaton {
        symbolic,
        automaton,
    } = read;
    membership_verdict(alloc, symbolic, &automaton, explain)
}

/// Returns the exit and the text for a word and an automaton. Fails as [accepts_text] does after both texts are read.
fn membership_verdict(
    alloc: Global,
    word: SymbolicWord,
    automaton: &Automaton,
    explain: bool,
) -> Result<(Exit, Vec<u8>), Refused>
    ensures verdict { IfOk result
        (λ made. IsMembershipVerdict word automaton.now explain made.0 made.1.items) }
    ensures refused { IfErr result
        (IsRefusedFor Which.Input (IsMembershipRefusal word automaton.now)) }
{
    match membership_reply(alloc, word, automaton, explain) {
        Ok(made) => Ok(made),
        Err(refusal) => Err(refused_for(Which::Input, refusal)),
    }
}

/// Returns the exit and the text for a word and an automaton. Fails as `accepts` of `omega_lang_inclusion` does.
fn membership_reply(
    alloc: Global,
    word: SymbolicWord,
    automaton: &Automaton,
    explain: bool,
) -> Result<(Exit, Vec<u8>), Refusal>
    ensures verdict { IfOk result
        (λ made. IsMembershipVerdict word automaton.now explain made.0 made.1.items) }
    ensures refused { IfErr result (IsMembershipRefusal word automaton.now) }
{
    let membership = accepts(alloc, word, automaton)?;
    let answer = membership_answer(alloc, &membership, explain)?;
    answer.reply(alloc)
}

/// Returns the answer that tells `membership`, with words that are not accepted if `explain` is set.
fn membership_answer(
    alloc: Global,
    membership: &Membership,
    explain: bool,
) -> Result<Answer, Refusal>
    ensures answer { IfOk result (λ answer. answer ≡ membership_answer explain membership.now) }
    ensures memory { IsOkUnless result Refusal.Memory }
{
    match membership {
        Membership::Accepted => Ok(Answer::Yes),
        Membership::Rejected(words) => {
            let lines = word_lines(alloc, words, explain)?;
            Ok(Answer::no_with(lines))
        }
    }
}

/// Returns the line of `words` if `explain` is set, and else nothing.
fn word_lines(alloc: Global, words: &LassoWord, explain: bool) -> Result<Vec<u8>, Refusal>
    ensures lines { IfOk result (λ lines. lines.items ≡ explained explain (word_line words.now)) }
    ensures memory { IsOkUnless result Refusal.Memory }
{
    let mut out = Vec::new(alloc);
    if explain {
        append_word_line(alloc, words, &mut out)?;
    }
    Ok(out)
}
