ghost use Rattle.std.specs.Prelude.{IfErr, IfOk};
ghost use Rattle.omega_answers_circuit.specs.FormulaVerify.{IsFormulaCircuitAnswer, IsFormulaCircuitRefused};
ghost use Rattle.omega_answers_circuit.specs.Verify.{IsCircuitAnswer, IsCircuitRefused};
ghost use Rattle.omega.specs.Giving.{IsVerdictOutcome};
ghost use Rattle.omega.specs.Solving.{asks};
ghost use Rattle.omega.specs.Synthesis.{lists_by};

use crate::giving::give_verdict;
use crate::solving::asks;
use crate::synthesis::{listed_names, one_list};
use crate::text::Text;
use crate::text_outcome::TextOutcome;
use omega_answers_circuit::{verify_circuit, verify_formula_circuit};
use omega_io::{Exit, Refused};
use omega_text::Refusal;
use std::alloc::Global;

/// Decides whether the circuit of `circuit` realizes the automaton of `specification`, which is to be deterministic:
/// the specification accepts each word of the circuit. Writes 1 into `verdict` and gives `yes`, or writes 0 and gives
/// `no`, with `explain` not 0 also the lines of a lasso of the circuit's automaton and its word.
///
/// The number of the outcome is 0, or that of the refusal of one of the texts, [TaskFault::Controllable] if the item
/// `controllable-AP:` is refused or the circuit stands on other sides, [AutomatonFault::Proposition] or
/// [CircuitFault::Name] for its names, [TaskFault::NotDeterministic], [TaskFault::UniversalBranch],
/// [TaskFault::TooManyPropositions], [TaskFault::TooLarge] or [Refusal::Memory]. Unless it is 0, `verdict` and `out`
/// stay.
#[unsafe(no_mangle)]
pub extern "C" fn omega_verify_circuit(
    alloc: Global,
    circuit: &[u8],
    specification: &[u8],
    explain: u8,
    verdict: &mut u32,
    out: &mut Text,
) -> TextOutcome
    ensures { IsVerdictOutcome (IsCircuitAnswer specification.now circuit.now (asks explain))
        (IsCircuitRefused specification.now circuit.now) result verdict.old verdict.new out.old out.new }
{
    match verify_circuit(alloc, specification, circuit, asks(explain)) {
        Ok((exit, output)) => give_verdict(alloc, exit, output, verdict, out),
        Err(refused) => TextOutcome::of(refused),
    }
}

/// Decides whether the circuit of `circuit` realizes the formula of `formula`: each word of the circuit satisfies it.
/// `names` lists the names that the system controls, each ended by a NUL; with `inputs` not 0, those that the
/// environment controls. All other names of the formula are the other side's. Writes 1 into `verdict` and gives `yes`,
/// or writes 0 and gives `no`, with `explain` not 0 also the lines of a lasso of the circuit's automaton and its word.
///
/// The number of the outcome is 0, or that of the refusal of one of the texts, [TaskFault::Controllable] if a name is
/// listed that the formula does not have or the circuit stands on other sides, [AutomatonFault::Proposition] or
/// [CircuitFault::Name] for its names, [TaskFault::TooManyPropositions], [TaskFault::TooLarge] or [Refusal::Memory].
/// Unless it is 0, `verdict` and `out` stay.
#[unsafe(no_mangle)]
pub extern "C" fn omega_verify_formula_circuit(
    alloc: Global,
    circuit: &[u8],
    formula: &[u8],
    names: &[u8],
    inputs: u8,
    explain: u8,
    verdict: &mut u32,
    out: &mut Text,
) -> TextOutcome
    ensures { let lists = lists_by (asks inputs) names.now in
        IsVerdictOutcome (IsFormulaCircuitAnswer formula.now lists circuit.now (asks explain))
        (IsFormulaCircuitRefused formula.now lists circuit.now)
        result verdict.old verdict.new out.old out.new }
{
    match formula_verdict(alloc, circuit, formula, names, asks(inputs), asks(explain)) {
        Ok((exit, output)) => give_verdict(alloc, exit, output, verdict, out),
        Err(refused) => TextOutcome::of(refused),
    }
}

/// Returns the verdict on a circuit for the formula, where the text of the names lists those of one side.
fn formula_verdict(
    alloc: Global,
    circuit: &[u8],
    formula: &[u8],
    names: &[u8],
    inputs: bool,
    explain: bool,
) -> Result<(Exit, Vec<u8>), Refused>
    ensures answer { IfOk result (λ made. IsFormulaCircuitAnswer
        formula.now (lists_by inputs names.now) circuit.now explain made.0 made.1.items) }
    ensures refused { IfErr result
        (IsFormulaCircuitRefused formula.now (lists_by inputs names.now) circuit.now) }
{
    match listed_names(alloc, names) {
        Ok(listed) => {
            let lists = one_list(inputs, listed.as_slice());
            verify_formula_circuit(alloc, formula, circuit, lists, explain)
        }
        Err(_) => Err(Refused::from(Refusal::Memory)),
    }
}
