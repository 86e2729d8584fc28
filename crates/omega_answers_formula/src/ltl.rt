ghost use Rattle.std.specs.Prelude.{IfErr, IfOk};
ghost use Rattle.omega_text.specs.Cases.{or_memory};
ghost use Rattle.omega_ltl_terms.specs.Adding.{IsLargeBy};
ghost use Rattle.omega_ltl_translation.specs.PastLimits.{IsPastLimits};
ghost use Rattle.omega_answers_formula.specs.Ltl.{IsAutomatonOf, IsLtlAnswer, IsLtlRefusal};

use crate::title::title;
use omega_canon::canonical;
use omega_ltl_formula::Formula;
use omega_ltl_text::read_formula;
use omega_ltl_translation::translate;
use omega_text::Refusal;
use std::alloc::Global;

/// Returns the canonical text of an automaton that accepts exactly the words that satisfy the formula of `text`, or
/// with `negated` exactly those that do not. Its `name:` is the formula, and its propositions are the formula's names
/// in the order in which they first stand there.
///
/// Fails with the [Refusal::Text] of the text, or else with [AutomatonFault::TooDeep] or [TaskFault::TooLarge] if the
/// formula is over a limit, or else with [TaskFault::TooLarge] if the automaton is, as `translate` says.
pub fn ltl_text(alloc: Global, text: &[u8], negated: bool) -> Result<Vec<u8>, Refusal>
    ensures answer { IfOk result (λ output. IsLtlAnswer text.now negated output.items) }
    ensures refused { IfErr result (or_memory (IsLtlRefusal text.now negated)) }
{
    let formula = read_formula(alloc, text)?;
    automaton_text(alloc, &formula, negated)
}

/// Returns the canonical text of the automaton of `formula`, or of its negation. Fails as `translate` does.
fn automaton_text(alloc: Global, formula: &Formula, negated: bool) -> Result<Vec<u8>, Refusal>
    ensures text { IfOk result (λ output. IsAutomatonOf negated formula.now output.items) }
    ensures refused { IfErr result (IsLargeBy (IsPastLimits formula.now negated)) }
{
    let name = title(alloc, formula, negated)?;
    match translate(alloc, formula, negated, name.as_slice()) {
        Ok(automaton) => canonical(alloc, &automaton),
        Err(refusal) => Err(refusal),
    }
}
