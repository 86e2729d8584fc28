ghost use Rattle.std.specs.Prelude.{◌≡◌, ◌++◌, ◌≤◌, IfOk, IfErr, IsOkUnless, OnOk};
ghost use Rattle.omega_answers_empty.specs.empty.Answer.{EndsDecision, EndsEmpty, EndsEmptySearch};
ghost use Rattle.omega_answers_empty.specs.empty.Answer.{EndsSearch, IsEmptyRefusal, IsEmptySearchRefusal};
ghost use Rattle.omega_answers_empty.specs.empty.Answer.{emptiness_text, exit_after, lasso_lines};
ghost use Rattle.omega_answers_empty.specs.empty.Answer.{run_line, word_line};
ghost use Rattle.omega_answers_empty.specs.Observing.{LiftsAutomatonText};
ghost use Rattle.omega_solve.specs.budget.Observing.{IsObserved, refusal_in};
ghost use Rattle.omega_empty.specs.Deciding.{IsEmptinessRefusal};
ghost use Rattle.omega_empty.specs.Observing.{LiftsAutomaton};
ghost use Rattle.omega_lang_lasso_search.specs.Searching.{IsSearchRefusal};
ghost use Rattle.omega_solve.specs.Limits.{most_lifts};
ghost use Rattle.omega_text.specs.Cases.{or_memory};

use crate::lines::Lines;
use omega_empty::{Verdict, emptiness_observed};
use omega_game_values::Refusal;
use omega_hoa::read_one;
use omega_hoa_automaton::Automaton;
use omega_io::Exit;
use omega_lang_lasso_search::lasso;
use omega_lang_lasso_text::write_lasso;
use omega_lang_lasso_word::{run_of, word_of};
use omega_solve::budget::Reporter;
use std::alloc::Global;

/// Decides by lifting in the emptiness game whether the automaton of `text` is empty. Returns `empty`, or an accepting
/// lasso with the wanted `lines`. Ends with [Exit::No] if it is empty and `status` is set, and else with [Exit::Done].
/// The run is reported to `observer`.
///
/// Fails with the [Refusal::Text] or [Refusal::Automaton] of the text, or else with the first that applies of
/// [GameFault::TooManyNodes], [TaskFault::NotParity], [TaskFault::UniversalBranch], [TaskFault::TooManyPropositions],
/// [TaskFault::TooWide] and [TaskFault::Budget].
pub fn decide_emptiness<L, W: Reporter<L>>(
    alloc: Global,
    text: &[u8],
    lines: Lines,
    status: bool,
    budget: u64,
    reporter: &W,
    observer: &mut L,
) -> Result<(Exit, Vec<u8>), Refusal>
    requires { budget ≤ most_lifts }
    ensures answer { IfOk result (λ made. EndsEmpty text.now budget lines status made.0 made.1.items) }
    ensures refused { IfErr result (or_memory (IsEmptyRefusal text.now budget)) }
    ensures reported { IsObserved (LiftsAutomatonText text.now) (refusal_in result)
        (W.tells reporter.now) (W.pace reporter.now) budget observer.old observer.new }
{
    let automaton = read_one(alloc, text)?;
    decide_automaton(alloc, &automaton, lines, status, budget, reporter, observer)
}

/// Decides by a search in the automaton of `text` whether it is empty. Returns `empty`, or an accepting lasso with the
/// wanted `lines`. Ends with [Exit::No] if it is empty and `status` is set, and else with [Exit::Done]. Fails with the
/// [Refusal::Text] or [Refusal::Automaton] of the text, or else with [TaskFault::UniversalBranch], or else with
/// [TaskFault::TooManyPropositions].
pub fn search_emptiness(
    alloc: Global,
    text: &[u8],
    lines: Lines,
    status: bool,
) -> Result<(Exit, Vec<u8>), Refusal>
    ensures answer { IfOk result (λ made. EndsEmptySearch text.now lines status made.0 made.1.items) }
    ensures refused { IfErr result (or_memory (IsEmptySearchRefusal text.now)) }
{
    let automaton = read_one(alloc, text)?;
    search_automaton(alloc, &automaton, lines, status)
}

/// Decides by lifting in its emptiness game whether `automaton` is empty, as [decide_emptiness] does. The run is
/// reported to `observer`.
///
/// Fails with the first that applies of [GameFault::TooManyNodes], [TaskFault::NotParity],
/// [TaskFault::UniversalBranch], [TaskFault::TooManyPropositions], [TaskFault::TooWide] and [TaskFault::Budget].
pub fn decide_automaton<L, W: Reporter<L>>(
    alloc: Global,
    automaton: &Automaton,
    lines: Lines,
    status: bool,
    budget: u64,
    reporter: &W,
    observer: &mut L,
) -> Result<(Exit, Vec<u8>), Refusal>
    requires { budget ≤ most_lifts }
    ensures decision { IfOk result
        (λ made. EndsDecision automaton.now budget lines status made.0 made.1.items) }
    ensures refused { IfErr result (IsEmptinessRefusal automaton.now budget) }
    ensures reported { IsObserved (LiftsAutomaton automaton.now) (refusal_in result)
        (W.tells reporter.now) (W.pace reporter.now) budget observer.old observer.new }
{
    let verdict = emptiness_observed(alloc, automaton, budget, reporter, observer)?;
    emptiness_reply(alloc, automaton, &verdict, lines, status)
}

/// Decides by a search whether `automaton` is empty, as [search_emptiness] does. Fails with
/// [TaskFault::UniversalBranch], or else with [TaskFault::TooManyPropositions].
pub fn search_automaton(
    alloc: Global,
    automaton: &Automaton,
    lines: Lines,
    status: bool,
) -> Result<(Exit, Vec<u8>), Refusal>
    ensures decision { IfOk result
        (λ made. EndsSearch automaton.now lines status made.0 made.1.items) }
    ensures refused { IfErr result (IsSearchRefusal automaton.now) }
{
    let verdict = lasso(alloc, automaton)?;
    emptiness_reply(alloc, automaton, &verdict, lines, status)
}

/// Returns how `empty` ends after a `verdict` on `automaton`, and its output.
fn emptiness_reply(
    alloc: Global,
    automaton: &Automaton,
    verdict: &Verdict,
    lines: Lines,
    status: bool,
) -> Result<(Exit, Vec<u8>), Refusal>
    ensures reply { IfOk result (λ made. (made.0 ≡ exit_after status verdict.now)
        × (made.1.items ≡ emptiness_text automaton.now lines verdict.now)) }
    ensures memory { IsOkUnless result Refusal.Memory }
{
    let text = emptiness_text(alloc, automaton, verdict, lines)?;
    Ok((exit_after(verdict, status), text))
}

/// Returns how `empty` ends after a `verdict`, which the exit tells if `status` is set.
fn exit_after(verdict: &Verdict, status: bool) -> Exit
    ensures { result ≡ exit_after status verdict.now }
{
    match verdict {
        Verdict::Empty if status => Exit::No,
        _ => Exit::Done,
    }
}

/// Returns the output for a `verdict` on `automaton`.
fn emptiness_text(
    alloc: Global,
    automaton: &Automaton,
    verdict: &Verdict,
    lines: Lines,
) -> Result<Vec<u8>, Refusal>
    ensures text { IfOk result (λ text. text.items ≡ emptiness_text automaton.now lines verdict.now) }
    ensures memory { IsOkUnless result Refusal.Memory }
{
    match verdict {
        Verdict::Empty => Ok(Vec::from_slice(alloc, b"empty\n")?),
        Verdict::Lasso { stem, cycle } => {
            lasso_lines(alloc, automaton, stem.as_slice(), cycle.as_slice(), lines)
        }
    }
}

/// Returns the lines of a lasso, and those of its word and of its run that are wanted.
fn lasso_lines(
    alloc: Global,
    automaton: &Automaton,
    stem: &[u32],
    cycle: &[u32],
    lines: Lines,
) -> Result<Vec<u8>, Refusal>
    ensures text { IfOk result
        (λ text. text.items ≡ lasso_lines automaton.now lines stem.now cycle.now) }
    ensures memory { IsOkUnless result Refusal.Memory }
{
    let mut out = write_lasso(alloc, stem, cycle)?;
    append_word(alloc, automaton, stem, cycle, lines.word, &mut out)?;
    append_run(alloc, automaton, stem, cycle, lines.run, &mut out)?;
    Ok(out)
}

/// Appends the line of the word of a lasso, if it is `wanted`.
fn append_word(
    alloc: Global,
    automaton: &Automaton,
    stem: &[u32],
    cycle: &[u32],
    wanted: bool,
    out: &mut Vec<u8>,
) -> Result<(), Refusal>
    ensures ok { OnOk result
        (out.new.items ≡ out.old.items ++ word_line automaton.now wanted stem.now cycle.now) }
    ensures memory { IsOkUnless result Refusal.Memory }
{
    if wanted {
        let letters = word_of(alloc, automaton, stem, cycle)?;
        out.extend_from_slice(b"word ")?;
        out.extend_from_slice(letters.as_slice())?;
        out.extend_from_slice(b"\n")?;
    }
    Ok(())
}

/// Appends the line of the run of a lasso, if it is `wanted`.
fn append_run(
    alloc: Global,
    automaton: &Automaton,
    stem: &[u32],
    cycle: &[u32],
    wanted: bool,
    out: &mut Vec<u8>,
) -> Result<(), Refusal>
    ensures ok { OnOk result
        (out.new.items ≡ out.old.items ++ run_line automaton.now wanted stem.now cycle.now) }
    ensures memory { IsOkUnless result Refusal.Memory }
{
    if wanted {
        let states = run_of(alloc, automaton, stem, cycle)?;
        out.extend_from_slice(b"run ")?;
        out.extend_from_slice(states.as_slice())?;
        out.extend_from_slice(b"\n")?;
    }
    Ok(())
}
