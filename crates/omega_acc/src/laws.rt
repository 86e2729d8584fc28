//! Laws of all canonical texts. Each function does nothing and states one law.

ghost use Rattle.omega_acc.specs.WritingLaws.{AccTextsAreFormulas, LabelTextsAreLabels};
ghost use Rattle.omega_acc.specs.WritingLaws.{WrittenFormulasAreShallowest, WrittenFormulasMean};
ghost use Rattle.omega_acc.specs.WritingLaws.{WrittenLabelsAreShallowest, WrittenLabelsMean};

use omega_text::HoaKind;
use omega_text::hoa::laws::{
    closed_are_longest, numbers_are_longest, numbers_are_plain, words_are_longest,
};
use omega_text::laws::cuts_join;

/// States that the canonical text of a label, if it does not run into what follows, is cut into the tokens of that
/// label as it is written.
pub fn label_texts_are_labels()
    ensures { LabelTextsAreLabels }
{
    cuts_join::<HoaKind>();
    numbers_are_longest();
    numbers_are_plain();
    words_are_longest();
    closed_are_longest();
}

/// States that a label as it is written means itself.
pub fn written_labels_mean()
    ensures { WrittenLabelsMean }
{}

/// States that no expression that means a label is less deep than that label as it is written.
pub fn written_labels_are_shallowest()
    ensures { WrittenLabelsAreShallowest }
{}

/// States that the canonical text of an acceptance formula, if it does not run into what follows, is cut into the
/// tokens of that formula as it is written.
pub fn acc_texts_are_formulas()
    ensures { AccTextsAreFormulas }
{
    cuts_join::<HoaKind>();
    numbers_are_longest();
    numbers_are_plain();
    words_are_longest();
    closed_are_longest();
}

/// States that an acceptance formula as it is written means itself.
pub fn written_formulas_mean()
    ensures { WrittenFormulasMean }
{}

/// States that no expression that means an acceptance formula is less deep than that formula as it is written.
pub fn written_formulas_are_shallowest()
    ensures { WrittenFormulasAreShallowest }
{}
