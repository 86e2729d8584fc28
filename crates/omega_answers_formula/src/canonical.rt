ghost use Rattle.std.specs.Prelude.{IfErr, IfOk};
ghost use Rattle.omega_ltl_text.specs.Text.{IsReadFormulaRefusal};
ghost use Rattle.omega_answers_formula.specs.Canonical.{IsFormulaTextAnswer};

use omega_ltl_text::{read_formula, write_formula};
use omega_text::Refusal;
use std::alloc::Global;

/// Returns the canonical text of the formula of `text`, without a line feed, in linear time.
///
/// Fails with the [Refusal::Text] of the text, or else with [AutomatonFault::TooDeep] or [TaskFault::TooLarge] if the
/// formula is over a limit.
pub fn canonical_formula(alloc: Global, text: &[u8]) -> Result<Vec<u8>, Refusal>
    ensures answer { IfOk result (λ output. IsFormulaTextAnswer text.now output.items) }
    ensures refused { IfErr result (IsReadFormulaRefusal text.now) }
{
    match read_formula(alloc, text) {
        Ok(formula) => write_formula(alloc, &formula),
        Err(refusal) => Err(refusal),
    }
}
