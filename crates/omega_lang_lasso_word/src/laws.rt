//! Laws of the words of lassos. A call does nothing and states one law.

ghost use Rattle.omega_lang_lasso_word.specs.Laws.{AdmittedWordsAreAccepted, FittingWordsAreAccepted};
ghost use Rattle.omega_lang_lasso_word.specs.Laws.{LettersAreTrueWhereEdgesCanBeTaken, TextsHaveOneTruth};
ghost use Rattle.omega_lang_lasso_word.specs.Laws.{WordsFitWhereEdgesCanBeTaken};

/// States that an automaton without universal branching accepts each word that the letters along an accepting lasso
/// admit.
pub fn admitted_words_are_accepted()
    ensures { AdmittedWordsAreAccepted }
{}

/// States that a text of a formula over names has one truth where some names hold: no two readings of it differ.
pub fn texts_have_one_truth()
    ensures { TextsHaveOneTruth }
{}

/// States that the letter of an edge is a formula over the names of the propositions, and that it is true exactly where
/// the edge can be taken.
pub fn letters_are_true_where_edges_can_be_taken()
    ensures { LettersAreTrueWhereEdgesCanBeTaken }
{}

/// States that a word fits the text of an accepting lasso exactly if the edges along the lasso can be taken with it.
pub fn words_fit_where_edges_can_be_taken()
    ensures { WordsFitWhereEdgesCanBeTaken }
{}

/// States that an automaton without universal branching accepts each word that fits the text of an accepting lasso.
pub fn fitting_words_are_accepted()
    ensures { FittingWordsAreAccepted }
{}
