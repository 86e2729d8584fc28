//! Laws of symbolic words and of their automata. A call does nothing and states one law.

ghost use Rattle.omega_lang_inclusion.specs.Laws.{OneWordsAreAcceptedTogether, WordAutomataAcceptAdmitted};

/// States that the automaton of a symbolic word accepts exactly the words that the symbolic word admits.
pub fn word_automata_accept_admitted()
    ensures { WordAutomataAcceptAdmitted }
{}

/// States that an automaton accepts all words that a symbolic word admits if it accepts one, where each letter fixes
/// each of its propositions.
pub fn one_words_are_accepted_together()
    ensures { OneWordsAreAcceptedTogether }
{}
