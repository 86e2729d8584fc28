ghost use Rattle.std.specs.Prelude.{IfErr, IfOk};
ghost use Rattle.omega_answers_circuit.specs.FormulaCircuit.{IsFormulaCircuitRefusal};
ghost use Rattle.omega_answers_circuit.specs.FormulaCircuit.{IsFormulaCircuitWritten};
ghost use Rattle.omega_answers_circuit.specs.WinningCircuit.{IsWinningCircuitAnswer, IsWinningCircuitRefusal};
ghost use Rattle.omega_answers_circuit.specs.declared.circuit_form.CircuitForm.{CircuitForm};
ghost use Rattle.omega_text.specs.Cases.{or_memory};
ghost use Rattle.omega.specs.Circuits.{form_asked};
ghost use Rattle.omega.specs.Giving.{IsOneRefused, IsVerdictOutcome};
ghost use Rattle.omega.specs.Solving.{asks};
ghost use Rattle.omega.specs.Synthesis.{lists_by};

use crate::circuit_form::form_asked;
use crate::giving::give_verdict;
use crate::solving::asks;
use crate::synthesis::{listed_names, one_list};
use crate::text::Text;
use crate::text_outcome::TextOutcome;
use omega_answers_circuit::{CircuitForm, write_formula_circuit, write_winning_circuit};
use omega_io::Exit;
use omega_text::Refusal;
use std::alloc::Global;

/// Decides as `omega_realize` whether the automaton of `text` is realizable. Writes 1 into `verdict` and gives the
/// canonical text of a circuit that realizes it, in the ASCII form of AIGER, or, with `binary` not 0, in the binary
/// one. Or writes 0 and gives the line `unrealizable`. `omega_verify_circuit` says `yes` to each circuit that is
/// given.
///
/// The number of the outcome is 0, or that of a refusal of `omega_realize`, [CircuitFault::Name] if the name of a
/// proposition is empty or has a line feed, [TaskFault::TooManyPropositions], [TaskFault::TooLarge], or
/// [TaskFault::Unjudged], which is a fault of the library. Unless it is 0, `verdict` and `out` stay.
#[unsafe(no_mangle)]
pub extern "C" fn omega_realize_circuit(
    alloc: Global,
    text: &[u8],
    binary: u8,
    verdict: &mut u32,
    out: &mut Text,
) -> TextOutcome
    ensures { IsVerdictOutcome
        (IsWinningCircuitAnswer (form_asked binary) text.now)
        (IsOneRefused (IsWinningCircuitRefusal (form_asked binary) text.now))
        result verdict.old verdict.new out.old out.new }
{
    match write_winning_circuit(alloc, text, form_asked(binary)) {
        Ok((exit, output)) => give_verdict(alloc, exit, output, verdict, out),
        Err(refusal) => TextOutcome::of_one(refusal),
    }
}

/// Decides as `omega_realize_formula` whether some system satisfies the formula of `formula`, with names that are
/// listed in the same way. Writes 1 into `verdict` and gives the canonical text of a circuit that satisfies it, in the
/// ASCII form of AIGER, or, with `binary` not 0, in the binary one. Or writes 0 and gives the line `unrealizable`.
/// `omega_verify_formula_circuit` says `yes` to each circuit that is given.
///
/// The number of the outcome is 0, or that of a refusal of `omega_realize_formula`, [CircuitFault::Name] if a name of
/// the formula is empty or has a line feed, [TaskFault::TooManyPropositions], [TaskFault::TooLarge], or
/// [TaskFault::Unjudged], which is a fault of the library. Unless it is 0, `verdict` and `out` stay.
#[unsafe(no_mangle)]
pub extern "C" fn omega_realize_formula_circuit(
    alloc: Global,
    formula: &[u8],
    names: &[u8],
    inputs: u8,
    binary: u8,
    verdict: &mut u32,
    out: &mut Text,
) -> TextOutcome
    ensures { let lists = lists_by (asks inputs) names.now in
        IsVerdictOutcome (IsFormulaCircuitWritten (form_asked binary) formula.now lists)
        (IsOneRefused (IsFormulaCircuitRefusal (form_asked binary) formula.now lists))
        result verdict.old verdict.new out.old out.new }
{
    match formula_circuit(alloc, formula, names, asks(inputs), form_asked(binary)) {
        Ok((exit, output)) => give_verdict(alloc, exit, output, verdict, out),
        Err(refusal) => TextOutcome::of_one(refusal),
    }
}

/// Returns the circuit for the formula, or that there is none, where the text of the names lists those of one side.
fn formula_circuit(
    alloc: Global,
    formula: &[u8],
    names: &[u8],
    inputs: bool,
    form: CircuitForm,
) -> Result<(Exit, Vec<u8>), Refusal>
    ensures answer { IfOk result (λ made.
        IsFormulaCircuitWritten form formula.now (lists_by inputs names.now) made.0 made.1.items) }
    ensures refused { IfErr result
        (or_memory (IsFormulaCircuitRefusal form formula.now (lists_by inputs names.now))) }
{
    let listed = listed_names(alloc, names)?;
    write_formula_circuit(alloc, formula, one_list(inputs, listed.as_slice()), form)
}
