//! Laws of the answers. A call does nothing and states one law.

ghost use Rattle.omega_ltl_equality.specs.Laws.{AnswersExcludeEachOther, EqualMeansTheSameWords};
ghost use Rattle.omega_ltl_equality.specs.Laws.{JudgedAutomataAreTranslations};

/// States what [FormulaEquality::Equal](crate::FormulaEquality::Equal) means: the automaton accepts exactly the words
/// that satisfy the formula, by the limited principle of omniscience.
pub fn equal_means_the_same_words()
    ensures { EqualMeansTheSameWords }
{}

/// States that no two of the three answers are right of one automaton and one formula, by the limited principle of
/// omniscience.
pub fn answers_exclude_each_other()
    ensures { AnswersExcludeEachOther }
{}

/// States that an automaton that is judged for a formula is an automaton of the formula as `translate` returns one, by
/// the limited principle of omniscience.
pub fn judged_automata_are_translations()
    ensures { JudgedAutomataAreTranslations }
{}
