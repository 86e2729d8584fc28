//! Whether a circuit realizes a formula.

ghost use Rattle.std.specs.Prelude.{ℕ, List, IfErr, IfOk};
ghost use Rattle.omega_aiger.specs.Text.{IsCircuitText};
ghost use Rattle.omega_answers_formula.specs.Formula.{IsFormulaOfText};
ghost use Rattle.omega_answers_synth.specs.Outputs.{lists_of};
ghost use Rattle.omega_circuit.specs.Circuit.{CircuitValue};
ghost use Rattle.omega_answers_circuit.specs.FormulaVerify.{IsFormulaCircuitAnswer, IsFormulaCircuitRefused};
ghost use Rattle.omega_answers_circuit.specs.FormulaVerify.{IsFormulaCircuitVerdict, IsNamedCircuitVerdict};
ghost use Rattle.omega_answers_circuit.specs.FormulaVerify.{RefusesFormulaCircuit, RefusesNamedCircuit};

use crate::judge::formula_circuit_judgement;
use crate::judgement_answer::judgement_reply;
use omega_aiger::read_aiger;
use omega_answers_synth::{GivenNames, outputs_of};
use omega_circuit::Circuit;
use omega_io::{Exit, Refused, Which};
use omega_ltl_formula::Formula;
use omega_ltl_text::read_formula;
use omega_text::ByteString;
use std::alloc::Global;

/// Decides whether the circuit of `circuit` realizes the formula of `formula`: each word of the circuit satisfies it.
/// Returns `yes` with [Exit::Done], else `no` with [Exit::No].
///
/// The system controls the names of the formula that `names` gives to it, and the environment all others, as
/// `verify_formula_controller` says it. A name of the formula is the input or output of that name; one that the circuit
/// lacks is open, and a name that the formula lacks says nothing. The circuit may have any number of inputs.
///
/// If `explain` is set, the lines of `satisfies_texts` follow `no`: an accepting lasso of the automaton that
/// `write_circuit_automaton` writes for the circuit, and its word.
///
/// `formula` is the text that a refusal calls the file, and `circuit` the one that it calls the input. Fails with the
/// refusal of `formula`, or else with the [Refusal::Text] or [Refusal::Circuit] of `circuit`. Or else fails with
/// [TaskFault::Controllable] about `formula` if `names` does not part its names, as `decide_formula_realizability` says
/// it.
///
/// Or else fails about `circuit` with [AutomatonFault::Proposition] or [CircuitFault::Name] as `circuit_automaton`
/// does, or else with [TaskFault::Controllable] if an input is named like an output of the formula or an output like an
/// input of it, or else with [TaskFault::TooLarge] as `circuit_automaton` does. Or else fails as `satisfies` does:
/// [TaskFault::TooManyPropositions] and [TaskFault::TooLarge] are about neither text.
pub fn verify_formula_circuit(
    alloc: Global,
    formula: &[u8],
    circuit: &[u8],
    names: GivenNames<'_>,
    explain: bool,
) -> Result<(Exit, Vec<u8>), Refused>
    ensures answer { IfOk result (λ made. IsFormulaCircuitAnswer
        formula.now (lists_of names.entry) circuit.now explain made.0 made.1.items) }
    ensures refused { IfErr result
        (IsFormulaCircuitRefused formula.now (lists_of names.entry) circuit.now) }
{
    match read_formula(alloc, formula) {
        Ok(read) => verdict_on_text(alloc, &read, names, circuit, explain),
        Err(refusal) => Err(Refused::of(Which::File, refusal)),
    }
}

/// Returns the exit and the text for a formula and the circuit of `text`. Fails as [verify_formula_circuit] does after
/// the formula is read.
fn verdict_on_text(
    alloc: Global,
    formula: &Formula,
    names: GivenNames<'_>,
    text: &[u8],
    explain: bool,
) -> Result<(Exit, Vec<u8>), Refused>
    ensures verdict { IfOk result (λ made. (c : CircuitValue) × IsCircuitText text.now c
        × IsNamedCircuitVerdict formula.now (lists_of names.entry) c explain made.0 made.1.items) }
    ensures refused { IfErr result (λ refused. (source : List ℕ) → IsFormulaOfText source formula.now
        → IsFormulaCircuitRefused source (lists_of names.entry) text.now refused) }
{
    match read_aiger(alloc, text) {
        Ok(circuit) => named_verdict(alloc, formula, names, &circuit, explain),
        Err(refusal) => Err(Refused::of(Which::Input, refusal)),
    }
}

/// Returns the exit and the text for a formula, the names that are given and a circuit. Fails as
/// [verify_formula_circuit] does after both texts are read.
fn named_verdict(
    alloc: Global,
    formula: &Formula,
    names: GivenNames<'_>,
    circuit: &Circuit,
    explain: bool,
) -> Result<(Exit, Vec<u8>), Refused>
    ensures verdict { IfOk result (λ made. IsNamedCircuitVerdict
        formula.now (lists_of names.entry) circuit.now explain made.0 made.1.items) }
    ensures refused { IfErr result
        (RefusesNamedCircuit formula.now (lists_of names.entry) circuit.now) }
{
    match outputs_of(alloc, formula, names) {
        Ok(outs) => formula_verdict(alloc, formula, outs.as_slice(), circuit, explain),
        Err(unparted) => Err(Refused::of(Which::File, unparted)),
    }
}

/// Returns the exit and the text for a formula, its outputs and a circuit. Fails as [formula_circuit_judgement] does.
fn formula_verdict(
    alloc: Global,
    formula: &Formula,
    outs: &[ByteString],
    circuit: &Circuit,
    explain: bool,
) -> Result<(Exit, Vec<u8>), Refused>
    ensures verdict { IfOk result (λ made.
        IsFormulaCircuitVerdict formula.now outs.now circuit.now explain made.0 made.1.items) }
    ensures refused { IfErr result (RefusesFormulaCircuit formula.now outs.now circuit.now) }
{
    let judgement = formula_circuit_judgement(alloc, formula, outs, circuit)?;
    match judgement_reply(alloc, &judgement, explain) {
        Ok(made) => Ok(made),
        Err(refusal) => Err(Refused::from(refusal)),
    }
}
