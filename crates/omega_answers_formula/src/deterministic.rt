ghost use Rattle.std.specs.Prelude.{IfErr, IfOk};
ghost use Rattle.omega_text.specs.Cases.{or_memory};
ghost use Rattle.omega_ltl_deterministic.specs.Candidate.{IsCandidate};
ghost use Rattle.omega_ltl_equality.specs.Judging.{IsJudged};
ghost use Rattle.omega_ltl_formula.specs.Table.{tree_of};
ghost use Rattle.omega_answers_formula.specs.Deterministic.{IsDeterministicAnswer, IsDeterministicAutomatonOf};
ghost use Rattle.omega_answers_formula.specs.Deterministic.{IsDeterministicRefusal, IsNotDetermined};

use omega_canon::canonical;
use omega_hoa_automaton::Automaton;
use omega_ltl_deterministic::deterministic_candidate;
use omega_ltl_equality::judged_automaton;
use omega_ltl_formula::Formula;
use omega_ltl_text::read_formula;
use omega_text::Refusal;
use std::alloc::Global;

/// Returns the canonical text of a deterministic automaton that accepts exactly the words that satisfy the formula of
/// `text`. Its acceptance is `parity min even`, and its propositions are the formula's names in the order in which they
/// first stand there. It has no name.
///
/// The automaton is found by a search, and judged: what is not deterministic and exact is refused as
/// [TaskFault::Unjudged], which is a fault of the program.
///
/// Fails with the [Refusal::Text] of the text, or else with [AutomatonFault::TooDeep] or [TaskFault::TooLarge] if the
/// formula is over a limit, or else with [TaskFault::TooLarge] if the search passes its limits, or else as
/// `judged_automaton` does.
pub fn deterministic_text(alloc: Global, text: &[u8]) -> Result<Vec<u8>, Refusal>
    ensures answer { IfOk result (λ output. IsDeterministicAnswer text.now output.items) }
    ensures refused { IfErr result (or_memory (IsDeterministicRefusal text.now)) }
{
    let formula = read_formula(alloc, text)?;
    deterministic_automaton_text(alloc, &formula)
}

/// Returns the canonical text of a deterministic automaton of `formula`. Fails as [deterministic_automaton] does.
fn deterministic_automaton_text(alloc: Global, formula: &Formula) -> Result<Vec<u8>, Refusal>
    ensures text { IfOk result (λ output. IsDeterministicAutomatonOf formula.now output.items) }
    ensures refused { IfErr result (or_memory (IsNotDetermined formula.now)) }
{
    match deterministic_automaton(alloc, formula) {
        Ok(automaton) => canonical(alloc, &automaton),
        Err(refusal) => Err(refusal),
    }
}

/// Returns a deterministic automaton of `formula`. Fails as [deterministic_text] does after the formula is read.
pub(crate) fn deterministic_automaton(
    alloc: Global,
    formula: &Formula,
) -> Result<Automaton, Refusal>
    ensures judged { IfOk result (IsJudged (tree_of formula.now)) }
    ensures form { IfOk result (IsCandidate formula.now.table.names) }
    ensures refused { IfErr result (or_memory (IsNotDetermined formula.now)) }
{
    let candidate = deterministic_candidate(alloc, formula)?;
    judged_candidate(alloc, candidate, formula)
}

/// Returns `candidate`, if it is deterministic and accepts exactly the words that satisfy `formula`. Fails as
/// `judged_automaton` does.
fn judged_candidate(
    alloc: Global,
    candidate: Automaton,
    formula: &Formula,
) -> Result<Automaton, Refusal>
    requires { IsCandidate formula.now.table.names candidate }
    ensures judged { IfOk result (IsJudged (tree_of formula.now)) }
    ensures form { IfOk result (IsCandidate formula.now.table.names) }
    ensures refused { IfErr result (or_memory (IsNotDetermined formula.now)) }
{
    match judged_automaton(alloc, candidate, formula) {
        Ok(judged) => Ok(judged),
        Err(refusal) => Err(refusal),
    }
}
