use crate::kind::FormulaKind;
use omega_text::{TextSyntax, TokenKind};

/// The syntax of formulas, for the laws of syntaxes.
pub(crate) struct FormulaSyntax;

impl TextSyntax for FormulaSyntax {
    ghost use Rattle.omega_ltl_formula.specs.Formula.{FormulaTree};
    ghost use Rattle.omega_ltl_text.specs.Symbols.{FormulaSymbol};
    ghost use Rattle.omega_ltl_text.specs.declared.kind.FormulaKind.{FormulaKind};
    ghost use Rattle.omega_ltl_text.specs.Grammar.{formula_syntax};

    ghost Kind = { FormulaKind };

    ghost Symbol = { FormulaSymbol };

    ghost Raw = { FormulaTree };

    ghost syntax = { formula_syntax };

    fn goes_on_one_way() {
        FormulaKind::goes_on_one_way();
    }
}
