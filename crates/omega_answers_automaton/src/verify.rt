ghost use Rattle.std.specs.Prelude.{◌≡◌, ◌++◌, false, IfErr, IfOk, IsOkUnless, OnOk};
ghost use Rattle.omega_text.specs.Cases.{or_memory};
ghost use Rattle.omega_hoa_automaton.specs.Branching.{has_universal_branching};
ghost use Rattle.omega_lang_lasso_check.specs.Refusing.{IsJudgeRefusal};
ghost use Rattle.omega_io.specs.Answer.{explained};
ghost use Rattle.omega_answers.specs.OneAutomaton.{IsRefusalOfText};
ghost use Rattle.omega_answers_automaton.specs.Verify.{IsLassoAnswer, IsLassoRefused, IsLassoVerdict};
ghost use Rattle.omega_answers_automaton.specs.Verify.{IsPlainText, RefusesBranching};
ghost use Rattle.omega_answers_automaton.specs.Verify.{fault_line, lasso_answer};

use omega_answers::{Answer, Exit, Refused, Which};
use omega_hoa::read_one;
use omega_hoa_automaton::{Automaton, Refusal, has_universal_branching};
use omega_lang_lasso_check::{LassoFault, judge_lasso, write_lasso_fault};
use omega_lang_lasso_text::{LassoText, read_lasso_lines};
use omega_text::TaskFault;
use std::alloc::Global;

/// Judges whether the lasso of `input`, given by the numbers of its edges, is an accepting lasso of the automaton of
/// `file`, without a search for one. The lines of its word and of its run, as `empty` writes them, are passed over. If
/// the lasso is not an accepting one and `explain` is set, the answer also says why.
///
/// Fails with the [Refusal::Text] or [Refusal::Automaton] of `file`, or else with [TaskFault::UniversalBranch] of its
/// automaton. Or else fails with the [Refusal::Text] of `input`, and then with [TaskFault::TooManyPropositions] of the
/// automaton, which is about `file` too.
pub fn verify_lasso(
    alloc: Global,
    file: &[u8],
    input: &[u8],
    explain: bool,
) -> Result<(Exit, Vec<u8>), Refused>
    ensures answer { IfOk result
        (λ made. IsLassoAnswer file.now input.now explain made.0 made.1.items) }
    ensures refused { IfErr result (IsLassoRefused file.now input.now) }
{
    match plain_automaton_in(alloc, file) {
        Ok(automaton) => match read_lasso_lines(alloc, input) {
            Ok(lasso) => match verdict_on(alloc, &automaton, &lasso, explain) {
                Ok(made) => Ok(made),
                Err(refusal) => Err(Refused::of(Which::File, refusal)),
            },
            Err(refusal) => Err(Refused::of(Which::Input, refusal)),
        },
        Err(refusal) => Err(Refused::of(Which::File, refusal)),
    }
}

/// Reads the automaton of `text`. Fails with [TaskFault::UniversalBranch] if it has universal branching.
fn plain_automaton_in(alloc: Global, text: &[u8]) -> Result<Automaton, Refusal>
    ensures automaton { IfOk result (IsPlainText text.now) }
    ensures refused { IfErr result (or_memory (IsRefusalOfText RefusesBranching text.now)) }
{
    match read_one(alloc, text) {
        Ok(automaton) => {
            if has_universal_branching(&automaton) {
                Err(Refusal::Task(TaskFault::UniversalBranch))
            } else {
                Ok(automaton)
            }
        }
        Err(refusal) => Err(refusal),
    }
}

/// Returns the verdict on `lasso` as one of `automaton`, with the fault of the lasso if `explain` is set. Fails as
/// [judge_lasso] does.
fn verdict_on(
    alloc: Global,
    automaton: &Automaton,
    lasso: &LassoText,
    explain: bool,
) -> Result<(Exit, Vec<u8>), Refusal>
    ensures verdict { IfOk result
        (λ made. IsLassoVerdict automaton.now lasso.now explain made.0 made.1.items) }
    ensures refused { IfErr result (IsJudgeRefusal automaton.now lasso.now.stem lasso.now.cycle) }
{
    let stem = lasso.stem.as_slice();
    let fault = judge_lasso(alloc, automaton, stem, lasso.cycle.as_slice())?;
    let answer = lasso_answer(alloc, fault, explain)?;
    answer.reply(alloc)
}

/// Returns the answer for a lasso that has `fault`, or has none.
fn lasso_answer(alloc: Global, fault: Option<LassoFault>, explain: bool) -> Result<Answer, Refusal>
    ensures answer { IfOk result (λ answer. answer ≡ lasso_answer explain fault) }
    ensures memory { IsOkUnless result Refusal.Memory }
{
    match fault {
        None => Ok(Answer::Yes),
        Some(fault) => {
            let lines = fault_lines(alloc, fault, explain)?;
            Ok(Answer::no_with(lines))
        }
    }
}

/// Returns the line that says `fault` if `explain` is set, and else nothing.
fn fault_lines(alloc: Global, fault: LassoFault, explain: bool) -> Result<Vec<u8>, Refusal>
    ensures lines { IfOk result (λ lines. lines.items ≡ explained explain (fault_line fault)) }
    ensures memory { IsOkUnless result Refusal.Memory }
{
    let mut out = Vec::new(alloc);
    if explain {
        write_lasso_fault(fault, &mut out)?;
        out.extend_from_slice(b"\n")?;
    }
    Ok(out)
}
