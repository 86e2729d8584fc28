ghost use Rattle.std.specs.Prelude.{IfErr, IfOk};
ghost use Rattle.omega_answers_synth.specs.Parting.{AreControlledAlike};
ghost use Rattle.omega_answers_synth.specs.Verify.{IsControllerAnswer, IsControllerRefused};
ghost use Rattle.omega_answers_synth.specs.Verify.{IsControllerVerdict, RefusesController};
ghost use Rattle.omega_synth_check.specs.Refusing.{IsJudgeRefusal};

use crate::about::judge_reported;
use crate::parting::parted_numbers;
use crate::reason::judgement_answer;
use omega_answers::read_two;
use omega_hoa_automaton::{Automaton, Refusal};
use omega_io::{Exit, Refused};
use omega_synth_check::judge;
use std::alloc::Global;

/// Decides whether the automaton of `text` is a controller for that of `specification`, which is to be deterministic:
/// it has a start, each state that it reaches has for each letter of the environment an edge that answers it, and the
/// specification accepts each word that it accepts. Returns `yes` with [Exit::Done], else `no` with [Exit::No].
///
/// The system controls the propositions that the controller's item `controllable-AP:` (extended HOA) lists, and the
/// environment all others. Propositions that have one name are the same in both automata, and either may have some that
/// the other does not have. If the specification has the item too, it has to say the same of the names that both have.
/// Without it the controller's item alone counts.
///
/// If `explain` is set, lines follow `no`. Without a start there is one, `no start`. For a letter without an answer
/// they are `state` with the number of the state, `letter` with what holds of each proposition of the environment, as
/// in the words of `empty`, and `stem` with the edges that lead there from a start. For a word that the specification
/// does not accept they are the lines of `contained_texts`: an accepting lasso of the controller, and its word.
///
/// Fails with the [Refusal::Text] or [Refusal::Automaton] of `specification`, or else with that of `text`. Or else
/// fails with [TaskFault::Controllable] about `specification` if its item is refused, or else so about `text` if its
/// item is, or if the two items differ. Or else fails as `judge` of `omega_synth_check` does:
/// [TaskFault::NotParity] is about `text`, and [TaskFault::NotDeterministic] about `specification`.
/// [TaskFault::UniversalBranch] is about `text` if its automaton has some, else about `specification`.
/// [TaskFault::TooLarge] and [TaskFault::TooManyPropositions] are about neither text.
pub fn verify_controller(
    alloc: Global,
    specification: &[u8],
    text: &[u8],
    explain: bool,
) -> Result<(Exit, Vec<u8>), Refused>
    ensures answer { IfOk result
        (λ made. IsControllerAnswer specification.now text.now explain made.0 made.1.items) }
    ensures refused { IfErr result (IsControllerRefused specification.now text.now) }
{
    let read = read_two(alloc, specification, text)?;
    controller_verdict(alloc, &read.file, &read.input, explain)
}

/// Returns the exit and the text for two automata. Fails as [verify_controller] does after both texts are read.
fn controller_verdict(
    alloc: Global,
    specification: &Automaton,
    controller: &Automaton,
    explain: bool,
) -> Result<(Exit, Vec<u8>), Refused>
    ensures verdict { IfOk result
        (λ made. IsControllerVerdict specification.now controller.now explain made.0 made.1.items) }
    ensures refused { IfErr result (RefusesController specification.now controller.now) }
{
    let parted = parted_numbers(alloc, specification, controller)?;
    match controller_reply(
        alloc,
        specification,
        controller,
        parted.controlled.as_slice(),
        explain,
    ) {
        Ok(made) => Ok(made),
        Err(refusal) => Err(judge_reported(controller, refusal)),
    }
}

/// Returns the exit and the text for two automata. The system controls the propositions of `controller` with the
/// numbers `controlled`. Fails as `judge` does.
fn controller_reply(
    alloc: Global,
    specification: &Automaton,
    controller: &Automaton,
    controlled: &[u32],
    explain: bool,
) -> Result<(Exit, Vec<u8>), Refusal>
    requires { AreControlledAlike specification.now controller.now controlled.now }
    ensures verdict { IfOk result
        (λ made. IsControllerVerdict specification.now controller.now explain made.0 made.1.items) }
    ensures refused { IfErr result (IsJudgeRefusal specification.now controller.now controlled.now) }
{
    let judgement = judge(alloc, specification, controller, controlled)?;
    let answer = judgement_answer(alloc, controller, controlled, &judgement, explain)?;
    answer.reply(alloc)
}
