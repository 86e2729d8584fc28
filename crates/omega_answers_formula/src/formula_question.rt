use omega_io::{Exit, Refusal};
use omega_ltl_formula::Formula;
use std::alloc::Global;

/// A question that is asked of each formula.
pub(crate) trait FormulaQuestion {
    ghost use Rattle.std.specs.Prelude.{ℕ, List, IfErr, IfOk};
    ghost use Rattle.omega_io.specs.declared.exit.Exit.{Exit};
    ghost use Rattle.omega_ltl_formula.specs.Table.{NumberedFormula};
    ghost use Rattle.omega_text.specs.declared.refusal.Refusal.{Refusal};

    /// How the program ends after the answer to a formula alone, and the text of the answer.
    ghost answers: { Self → NumberedFormula → Exit → List ℕ → Type 0 };

    /// How a formula is refused, or that memory is wanting.
    ghost refuses: { Self → NumberedFormula → Refusal → Type 0 };

    /// Returns the answer to `formula`: how the program ends after it, and its text.
    fn reply(&self, alloc: Global, formula: &Formula) -> Result<(Exit, Vec<u8>), Refusal>
        ensures answer { IfOk result (λ made. answers self.now formula.now made.0 made.1.items) }
        ensures refused { IfErr result (refuses self.now formula.now) };
}
