//! The circuit that satisfies the formula of a text.

ghost use Rattle.std.specs.Prelude.{false, ℕ, List, IfErr, IfOk, OnOk};
ghost use Rattle.omega_text.specs.Cases.{or_memory};
ghost use Rattle.omega_answers_circuit.specs.ControllerCircuit.{IsCircuitTextOver, IsUndrawnOver};
ghost use Rattle.omega_answers_circuit.specs.FormulaCircuit.{IsFormulaCircuitRefusal, IsFormulaCircuitWritten};
ghost use Rattle.omega_answers_circuit.specs.FormulaCircuit.{OfParts};
ghost use Rattle.omega_answers_circuit.specs.FormulaVerify.{IsFormulaCircuitAnswer, IsFormulaCircuitRefused};
ghost use Rattle.omega_answers_circuit.specs.OwnCircuit.{IsUnjudged};
ghost use Rattle.omega_answers_synth.specs.Outputs.{IsRefusalWithLists, lists_of};
ghost use Rattle.omega_io.specs.declared.exit.Exit.TheVariants.{Done};
ghost use Rattle.omega_synth_check.specs.CounterRefusing.{system_numbers};

use crate::circuit_form::CircuitForm;
use crate::controller_circuit::{circuit_text_over, controller_over};
use crate::own_refusals::unjudged_refusal;
use crate::verify_formula::verify_formula_circuit;
use omega_answers_synth::{Exit, GivenNames, outputs_of, write_formula_winner};
use omega_hoa_automaton::Refusal;
use omega_ltl_formula::Formula;
use omega_ltl_text::read_formula;
use omega_synth_check::numbers_named;
use omega_text::{ByteString, TaskFault};
use std::alloc::Global;

/// Decides as `decide_formula_realizability` does, and returns the text in `form` of a circuit that satisfies the
/// formula of `formula`, with [Exit::Done], or the line `unrealizable`, with [Exit::No].
///
/// The circuit is in canonical form. Its inputs are the formula's names that the environment controls and its outputs
/// those that the system controls, as `names` parts them, in the order of the formula and as symbols. Each latch begins
/// with 0. It is a circuit of the controller that `write_formula_winner` returns. Its text is read back, and judged as
/// `verify_formula_circuit` judges it: only if that says `yes` it is returned.
///
/// Fails as `decide_formula_realizability` does, or else as `circuit_of_controller` does: with [CircuitFault::Name] if
/// a name of the formula is empty or has a line feed, [TaskFault::TooManyPropositions] or [TaskFault::TooLarge]. Or
/// else fails with [TaskFault::TooLarge] if a text would be too long, or with one of these two as
/// `verify_formula_circuit` does. Fails with [TaskFault::Unjudged] if the judge says otherwise, which is a fault of the
/// program.
pub fn write_formula_circuit(
    alloc: Global,
    formula: &[u8],
    names: GivenNames<'_>,
    form: CircuitForm,
) -> Result<(Exit, Vec<u8>), Refusal>
    ensures answer { IfOk result (λ made.
        IsFormulaCircuitWritten form formula.now (lists_of names.entry) made.0 made.1.items) }
    ensures refused { IfErr result
        (or_memory (IsFormulaCircuitRefusal form formula.now (lists_of names.entry))) }
{
    let (exit, winner) = write_formula_winner(alloc, formula, names)?;
    match exit {
        Exit::Done => {
            let read = read_formula(alloc, formula)?;
            let circuit = named_circuit(alloc, &read, names, winner.as_slice(), form)?;
            check_formula_circuit_judged(alloc, formula, names, circuit.as_slice())?;
            Ok((Exit::Done, circuit))
        }
        Exit::No => Ok((Exit::No, Vec::from_slice(alloc, b"unrealizable\n")?)),
    }
}

/// Returns the text in `form` of a circuit of the controller of the text `winner`, over the names of `formula`, of
/// which the system controls those that `names` gives to it. Fails as [write_formula_circuit] does before the circuit
/// is judged.
fn named_circuit(
    alloc: Global,
    formula: &Formula,
    names: GivenNames<'_>,
    winner: &[u8],
    form: CircuitForm,
) -> Result<Vec<u8>, Refusal>
    ensures circuit { IfOk result (λ circuit. OfParts (λ names controlled.
        IsCircuitTextOver form names controlled circuit.items) (lists_of names.entry) formula.now) }
    ensures refused { IfErr result (or_memory (IsRefusalWithLists formula.now (lists_of names.entry)
        (λ outs. IsUndrawnOver formula.now.table.names winner.now))) }
{
    let outs = outputs_of(alloc, formula, names)?;
    formula_circuit(alloc, formula, outs.as_slice(), winner, form)
}

/// Returns the text in `form` of a circuit of the controller of the text `winner`, over the names of `formula`, of
/// which the system controls `outs`.
fn formula_circuit(
    alloc: Global,
    formula: &Formula,
    outs: &[ByteString],
    winner: &[u8],
    form: CircuitForm,
) -> Result<Vec<u8>, Refusal>
    ensures circuit { IfOk result (λ circuit. IsCircuitTextOver form formula.now.table.names
        (system_numbers formula.now.table.names outs.now) circuit.items) }
    ensures refused { IfErr result (or_memory (IsUndrawnOver formula.now.table.names winner.now)) }
{
    formula.keeps_limits();
    let controlled = numbers_named(alloc, formula.names(), outs)?;
    let controller = controller_over(alloc, formula.names(), winner)?;
    circuit_text_over(alloc, &controller, controlled.as_slice(), form)
}

/// Checks that the judge says `yes` to the circuit of the text `circuit`. Fails with [TaskFault::Unjudged] if it says
/// `no`, and else as [unjudged_refusal] says it.
fn check_formula_circuit_judged(
    alloc: Global,
    formula: &[u8],
    names: GivenNames<'_>,
    circuit: &[u8],
) -> Result<(), Refusal>
    ensures judged { OnOk result ((reply : List ℕ) × IsFormulaCircuitAnswer
        formula.now (lists_of names.entry) circuit.now false Done reply) }
    ensures refused { IfErr result (IsUnjudged
        (IsFormulaCircuitAnswer formula.now (lists_of names.entry) circuit.now false)
        (IsFormulaCircuitRefused formula.now (lists_of names.entry) circuit.now)) }
{
    match verify_formula_circuit(alloc, formula, circuit, names, false) {
        Ok((Exit::Done, _)) => Ok(()),
        Ok((Exit::No, _)) => Err(Refusal::Task(TaskFault::Unjudged)),
        Err(refused) => Err(unjudged_refusal(refused.refusal)),
    }
}
