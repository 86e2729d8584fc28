ghost use Rattle.std.specs.Prelude.{IfErr, IfOk};
ghost use Rattle.omega_ltl_formula.specs.Table.{tree_of};
ghost use Rattle.omega_text.specs.Cases.{or_memory};
ghost use Rattle.omega_answers_formula.specs.Deterministic.{IsNotDetermined};
ghost use Rattle.omega_answers_formula.specs.DeterministicNegation.{IsDeterministicNegationAnswer};
ghost use Rattle.omega_answers_formula.specs.DeterministicNegation.{IsDeterministicNegationOf};
ghost use Rattle.omega_answers_formula.specs.DeterministicNegation.{IsDeterministicNegationRefusal};
ghost use Rattle.omega_answers_formula.specs.DeterministicNegation.{IsNamedAutomatonOf};
ghost use Rattle.omega_answers_formula.specs.DeterministicNegation.{IsNegationNotDetermined};

use crate::deterministic::deterministic_automaton;
use crate::title::title;
use omega_canon::canonical_named;
use omega_ltl_formula::{Formula, negation_of};
use omega_ltl_text::read_formula;
use omega_text::Refusal;
use std::alloc::Global;

/// Returns the canonical text of a deterministic automaton that accepts exactly the words that do not satisfy the
/// formula of `text`. It is what `deterministic_text` returns for the negation of the formula, with that as its
/// `name:`, as `ltl_text` writes it.
///
/// The automaton is found by a search, and judged: what is not deterministic and exact is refused as
/// [TaskFault::Unjudged], which is a fault of the program.
///
/// Fails with the [Refusal::Text] of the text, or else with [AutomatonFault::TooDeep] or [TaskFault::TooLarge] if the
/// formula is over a limit, or else its negation, or else with [TaskFault::TooLarge] if the search passes its limits,
/// or else as `judged_automaton` does.
pub fn deterministic_negation_text(alloc: Global, text: &[u8]) -> Result<Vec<u8>, Refusal>
    ensures answer { IfOk result (λ output. IsDeterministicNegationAnswer text.now output.items) }
    ensures refused { IfErr result (or_memory (IsDeterministicNegationRefusal text.now)) }
{
    let formula = read_formula(alloc, text)?;
    negation_text(alloc, &formula)
}

/// Returns the canonical text of a deterministic automaton of the negation of `formula`. Fails as
/// [deterministic_negation_text] does after the formula is read.
fn negation_text(alloc: Global, formula: &Formula) -> Result<Vec<u8>, Refusal>
    ensures text { IfOk result (λ output. IsDeterministicNegationOf formula.now output.items) }
    ensures refused { IfErr result (or_memory (IsNegationNotDetermined formula.now)) }
{
    let negation = negation_of(alloc, formula)?;
    let name = title(alloc, formula, true)?;
    named_text(alloc, &negation, name.as_slice())
}

/// Returns the canonical text of a deterministic automaton of `formula` with this name. Fails as
/// `deterministic_automaton` does.
fn named_text(alloc: Global, formula: &Formula, name: &[u8]) -> Result<Vec<u8>, Refusal>
    ensures text { IfOk result (λ output.
        IsNamedAutomatonOf name.now formula.now.table.names (tree_of formula.now) output.items) }
    ensures refused { IfErr result (or_memory (IsNotDetermined formula.now)) }
{
    match deterministic_automaton(alloc, formula) {
        Ok(automaton) => canonical_named(alloc, &automaton, name),
        Err(refusal) => Err(refusal),
    }
}
