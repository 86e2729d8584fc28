//! Laws of the texts of lassos, for callers' proofs. A call does nothing and states one law.

ghost use Rattle.omega_lang_lasso_text.specs.Grammar.{lasso_syntax};
ghost use Rattle.omega_lang_lasso_text.specs.Laws.{LassoRefusalsAreOne, LassoTextsAreReadOrRefused};
ghost use Rattle.omega_lang_lasso_text.specs.Laws.{LassosAreNotRefused, LassosOfTextsAreOne};
ghost use Rattle.omega_lang_lasso_text.specs.Laws.{WrittenLassosAreRead, RunsArePassedOver};
ghost use Rattle.omega_lang_lasso_text.specs.Laws.{SpacedLassosAreRead, WordsArePassedOver};
ghost use Rattle.omega_lang_lasso_text.specs.Laws.{WrittenLassosHaveNoMore, WrittenLinesAreRead};
ghost use Rattle.omega_text.specs.Syntax.{SyntaxFaultsAreFirst};

use crate::kind::LassoKind;
use crate::syntax::LassoSyntax;
use omega_text::laws::{
    cuts_are_one, syntax_faults_are_first, text_faults_are_one, texts_are_read_or_faulty,
    texts_have_no_fault,
};
use omega_text::pg::laws::{ends_are_gaps, numbers_are_longest, words_are_longest};

/// States that a text says at most one lasso.
pub fn lassos_of_texts_are_one()
    ensures { LassosOfTextsAreOne }
{
    cuts_are_one::<LassoKind>();
}

/// States that a text has at most one refusal as a text of a lasso.
pub fn lasso_refusals_are_one()
    ensures { LassoRefusalsAreOne }
{
    text_faults_are_one::<LassoSyntax>();
}

/// States that a text that says a lasso has no refusal.
pub fn lassos_are_not_refused()
    ensures { LassosAreNotRefused }
{
    texts_have_no_fault::<LassoSyntax>();
}

/// States that a text says a lasso or has a refusal.
pub fn lasso_texts_are_read_or_refused()
    ensures { LassoTextsAreReadOrRefused }
{
    texts_are_read_or_faulty::<LassoSyntax>();
}

/// States that the tokens of a text up to a given one begin a text of the grammar exactly if that one is before the
/// place of the syntax fault.
pub fn lasso_syntax_faults_are_first()
    ensures { SyntaxFaultsAreFirst lasso_syntax }
{
    syntax_faults_are_first::<LassoSyntax>();
}

/// States that the written form of a lasso says that lasso if it keeps the limits of texts and of numbers.
pub fn written_lassos_are_read()
    ensures { WrittenLassosAreRead }
{
    ends_are_gaps();
    numbers_are_longest();
    words_are_longest();
}

/// States that the written form of a lasso with more white space at its front and after its numbers says that lasso if
/// it keeps the limits of texts and of numbers.
pub fn spaced_lassos_are_read()
    ensures { SpacedLassosAreRead }
{
    ends_are_gaps();
    numbers_are_longest();
    words_are_longest();
}

/// States that the written form of a lasso is the part of the lasso if a line of a word or of a run follows it, or
/// nothing.
pub fn words_and_runs_are_passed_over()
    ensures words { WordsArePassedOver }
    ensures runs { RunsArePassedOver }
    ensures none { WrittenLassosHaveNoMore }
{}

/// States that a text whose part of the lasso is its written form says that lasso if it keeps the limits of texts and
/// of numbers.
pub fn written_lines_are_read()
    ensures { WrittenLinesAreRead }
{
    written_lassos_are_read();
}
