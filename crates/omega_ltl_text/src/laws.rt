//! Laws of the texts of formulas, for callers' proofs. A call does nothing and states one law.

ghost use Rattle.omega_text.specs.Syntax.{SyntaxFaultsAreFirst};
ghost use Rattle.omega_ltl_text.specs.Grammar.{formula_syntax};
ghost use Rattle.omega_ltl_text.specs.Laws.{FormulaRefusalsAreOne, FormulaTextsAreReadOrRefused};
ghost use Rattle.omega_ltl_text.specs.Laws.{FormulasAreNotRefused, FormulasOfTextsAreOne, NamesAreQuotable};
ghost use Rattle.omega_ltl_text.specs.Laws.{WrittenFormulasAreRead};

use crate::kind::FormulaKind;
use crate::syntax::FormulaSyntax;
use omega_text::laws::{
    cuts_are_one, syntax_faults_are_first, text_faults_are_one, texts_are_read_or_faulty,
    texts_have_no_fault,
};

/// States that a text says at most one formula.
pub fn formulas_of_texts_are_one()
    ensures { FormulasOfTextsAreOne }
{
    cuts_are_one::<FormulaKind>();
}

/// States that a text that says a formula within the limits has no refusal.
pub fn formulas_are_not_refused()
    ensures { FormulasAreNotRefused }
{
    cuts_are_one::<FormulaKind>();
    texts_have_no_fault::<FormulaSyntax>();
}

/// States that a text has at most one refusal.
pub fn formula_refusals_are_one()
    ensures { FormulaRefusalsAreOne }
{
    cuts_are_one::<FormulaKind>();
    texts_have_no_fault::<FormulaSyntax>();
    text_faults_are_one::<FormulaSyntax>();
}

/// States that a text says a formula within the limits or has a refusal.
pub fn formula_texts_are_read_or_refused()
    ensures { FormulaTextsAreReadOrRefused }
{
    texts_are_read_or_faulty::<FormulaSyntax>();
}

/// States that the tokens of a text up to a given one begin a formula exactly if that one is before the place of the
/// syntax fault.
pub fn formula_syntax_faults_are_first()
    ensures { SyntaxFaultsAreFirst formula_syntax }
{
    syntax_faults_are_first::<FormulaSyntax>();
}

/// States that the names of a formula that a text says can stand between quotes.
pub fn names_are_quotable()
    ensures { NamesAreQuotable }
{}

/// States that the canonical text of a formula within the limits says that formula, if its names can stand between
/// quotes, as those of each formula do that a text says.
pub fn written_formulas_are_read()
    ensures { WrittenFormulasAreRead }
{}
