//! Laws of words over names: each call does nothing and states one law.

ghost use Rattle.omega_lang_word_laws.specs.NamedWords.{WordsAreNamed, WordsSeenAlikeAreOne};

/// Shows that words over names miss no word: what an automaton sees of a word by the numbers of its propositions it
/// sees of some word over names.
pub fn words_are_named()
    ensures { WordsAreNamed }
{}

/// Shows that an automaton accepts a word exactly if it accepts each other word in which the same of its propositions
/// hold, whatever else holds there.
pub fn words_seen_alike_are_one()
    ensures { WordsSeenAlikeAreOne }
{}
