ghost use Rattle.std.specs.Prelude.{◌≡◌, ◌++◌, codes, IfErr, IfOk, IsOkUnless};
ghost use Rattle.omega_lang_inclusion.specs.SomeWord.{IsSomeRefusal};
ghost use Rattle.omega_answers_inclusion.specs.AcceptsSome.{IsAcceptsSomeAnswer, IsAcceptsSomeRefused};
ghost use Rattle.omega_answers_inclusion.specs.AcceptsSome.{IsSomeVerdict, some_exit, some_text};

use crate::example::counterexample_lines;
use crate::word_and_automaton::{WordAndAutomaton, read_word_and_automaton};
use omega_hoa_automaton::{Automaton, Refusal};
use omega_io::{Exit, Refused};
use omega_lang_inclusion::{Intersection, accepts_some};
use omega_lang_lasso_word::SymbolicWord;
use std::alloc::Global;

/// Decides whether the automaton of `text` accepts some word that the letters of `word` admit. Propositions that have
/// one name are the same. Returns `yes` with [Exit::Done], else `no` with [Exit::No]. If `explain` is set, an accepting
/// lasso of the automaton follows `yes`, as `empty` writes it, and its word: each word that fits it is admitted and
/// accepted. If no word is admitted, as by `cycle{a & !a}`, the answer is `no`.
///
/// `word` is the text that a refusal calls the file, and `text` the one that it calls the input. Fails with the
/// [Refusal::Text] of `word`, or else with the [Refusal::Text] or [Refusal::Automaton] of `text`. Or else fails as
/// `accepts_some` of `omega_lang_inclusion` does: [TaskFault::TooLarge], [TaskFault::TooManyPropositions] and
/// [TaskFault::UniversalBranch] are about neither.
pub fn accepts_some_text(
    alloc: Global,
    word: &[u8],
    text: &[u8],
    explain: bool,
) -> Result<(Exit, Vec<u8>), Refused>
    ensures answer { IfOk result
        (λ made. IsAcceptsSomeAnswer word.now text.now explain made.0 made.1.items) }
    ensures refused { IfErr result (IsAcceptsSomeRefused word.now text.now) }
{
    let read = read_word_and_automaton(alloc, word, text)?;
    let WordAndAutomaton {
        symbolic,
        automaton,
    } = read;
    match some_reply(alloc, symbolic, &automaton, explain) {
        Ok(made) => Ok(made),
        Err(refusal) => Err(Refused::from(refusal)),
    }
}

/// Returns the exit and the text for a word and an automaton. Fails as `accepts_some` of `omega_lang_inclusion` does.
fn some_reply(
    alloc: Global,
    word: SymbolicWord,
    automaton: &Automaton,
    explain: bool,
) -> Result<(Exit, Vec<u8>), Refusal>
    ensures verdict { IfOk result
        (λ made. IsSomeVerdict word automaton.now explain made.0 made.1.items) }
    ensures refused { IfErr result (IsSomeRefusal word automaton.now) }
{
    let answer = accepts_some(alloc, word, automaton)?;
    let text = some_text(alloc, &answer, explain)?;
    Ok((some_exit(&answer), text))
}

/// Returns how the program ends after `answer`.
fn some_exit(answer: &Intersection) -> Exit
    ensures { result ≡ some_exit answer.now }
{
    match answer {
        Intersection::Empty => Exit::No,
        Intersection::Common(_example) => Exit::Done,
    }
}

/// Returns the text of `answer`, with its example if `explain` is set.
fn some_text(alloc: Global, answer: &Intersection, explain: bool) -> Result<Vec<u8>, Refusal>
    ensures text { IfOk result (λ text. text.items ≡ some_text explain answer.now) }
    ensures memory { IsOkUnless result Refusal.Memory }
{
    match answer {
        Intersection::Empty => text_of(alloc, b"no\n", &[]),
        Intersection::Common(example) => {
            let lines = counterexample_lines(alloc, &[], example, explain)?;
            text_of(alloc, b"yes\n", lines.as_slice())
        }
    }
}

/// Returns the line `answer`, and `lines` after it.
fn text_of(alloc: Global, answer: &[u8], lines: &[u8]) -> Result<Vec<u8>, Refusal>
    ensures text { IfOk result (λ text. text.items ≡ answer.now ++ lines.now) }
    ensures memory { IsOkUnless result Refusal.Memory }
{
    let mut out = Vec::with_capacity(alloc, answer.len())?;
    out.extend_from_slice(answer)?;
    out.extend_from_slice(lines)?;
    Ok(out)
}
