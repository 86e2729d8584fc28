//! The law of verdicts on tables. A call does nothing and states it.

ghost use Rattle.omega_lang_lasso_search.specs.Laws.{TableVerdictsAreOfAutomata};

/// States that a verdict on a table is one on each automaton that has this table and usable edges alone.
pub fn table_verdicts_are_of_automata()
    ensures { TableVerdictsAreOfAutomata }
{}
