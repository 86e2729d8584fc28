//! The circuit that realizes the automaton of a text.

ghost use Rattle.std.specs.Prelude.{false, ℕ, List, IfErr, IfOk, OnOk};
ghost use Rattle.omega_text.specs.Cases.{or_memory};
ghost use Rattle.omega_answers_circuit.specs.OwnCircuit.{IsUnjudged};
ghost use Rattle.omega_answers_circuit.specs.Verify.{IsCircuitAnswer, IsCircuitRefused};
ghost use Rattle.omega_answers_circuit.specs.WinningCircuit.{IsCircuitOfController};
ghost use Rattle.omega_answers_circuit.specs.WinningCircuit.{IsWinningCircuitAnswer, IsWinningCircuitRefusal};
ghost use Rattle.omega_answers_synth.specs.Winner.{IsWinnerAnswer};
ghost use Rattle.omega_io.specs.declared.exit.Exit.TheVariants.{Done};

use crate::circuit_form::CircuitForm;
use crate::controller_circuit::{circuit_text_over, controller_over};
use crate::own_refusals::unjudged_refusal;
use crate::verify::verify_circuit;
use omega_answers_synth::{Exit, write_winner};
use omega_hoa::read_one;
use omega_hoa_automaton::Refusal;
use omega_synth_controllers::stated_propositions;
use omega_text::TaskFault;
use std::alloc::Global;

/// Decides as `decide_realizability` does, and returns the text in `form` of a circuit that realizes the automaton of
/// `text`, with [Exit::Done], or the line `unrealizable`, with [Exit::No].
///
/// The circuit is in canonical form. Its inputs are the environment's propositions and its outputs the system's, in
/// order and with their names as symbols, and each latch begins with 0. It is a circuit of the controller that
/// `write_winner` returns. Its text is read back, and judged as `verify_circuit` judges it: only if that says `yes` it
/// is returned.
///
/// Fails as `decide_realizability` does, or else as `circuit_of_controller` does: with [CircuitFault::Name] if the name
/// of a proposition is empty or has a line feed, [TaskFault::TooManyPropositions] or [TaskFault::TooLarge]. Or else
/// fails with [TaskFault::TooLarge] if a text would be too long, or with one of these two as `verify_circuit` does.
/// Fails with [TaskFault::Unjudged] if the judge says otherwise, which is a fault of the program.
pub fn write_winning_circuit(
    alloc: Global,
    text: &[u8],
    form: CircuitForm,
) -> Result<(Exit, Vec<u8>), Refusal>
    ensures answer { IfOk result (λ made. IsWinningCircuitAnswer form text.now made.0 made.1.items) }
    ensures refused { IfErr result (or_memory (IsWinningCircuitRefusal form text.now)) }
{
    let (exit, winner) = write_winner(alloc, text)?;
    match exit {
        Exit::Done => {
            let circuit = specified_circuit(alloc, text, winner.as_slice(), form)?;
            check_circuit_judged(alloc, text, circuit.as_slice())?;
            Ok((Exit::Done, circuit))
        }
        Exit::No => Ok((Exit::No, Vec::from_slice(alloc, b"unrealizable\n")?)),
    }
}

/// Returns the text in `form` of a circuit of the controller of the text `winner`, over the propositions of the
/// automaton of `text`. Fails as [write_winning_circuit] does before the circuit is judged.
fn specified_circuit(
    alloc: Global,
    text: &[u8],
    winner: &[u8],
    form: CircuitForm,
) -> Result<Vec<u8>, Refusal>
    requires { IsWinnerAnswer text.now Done winner.now }
    ensures circuit { IfOk result (λ circuit. IsCircuitOfController form text.now circuit.items) }
    ensures refused { IfErr result (or_memory (IsWinningCircuitRefusal form text.now)) }
{
    let specification = read_one(alloc, text)?;
    let controlled = stated_propositions(alloc, &specification)?;
    let controller = controller_over(alloc, specification.propositions(), winner)?;
    circuit_text_over(alloc, &controller, controlled.as_slice(), form)
}

/// Checks that the judge says `yes` to the circuit of the text `circuit`. Fails with [TaskFault::Unjudged] if it says
/// `no`, and else as [unjudged_refusal] says it.
fn check_circuit_judged(alloc: Global, text: &[u8], circuit: &[u8]) -> Result<(), Refusal>
    ensures judged { OnOk result
        ((reply : List ℕ) × IsCircuitAnswer text.now circuit.now false Done reply) }
    ensures refused { IfErr result (IsUnjudged (IsCircuitAnswer text.now circuit.now false)
        (IsCircuitRefused text.now circuit.now)) }
{
    match verify_circuit(alloc, text, circuit, false) {
        Ok((Exit::Done, _)) => Ok(()),
        Ok((Exit::No, _)) => Err(Refusal::Task(TaskFault::Unjudged)),
        Err(refused) => Err(unjudged_refusal(refused.refusal)),
    }
}
