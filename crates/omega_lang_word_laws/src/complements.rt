ghost use Rattle.omega_lang_word_laws.specs.Complements.{ComplementsAreApart, ComplementsAreOne};
ghost use Rattle.omega_lang_word_laws.specs.Complements.{ComplementsAreWritable, ComplementsCover};
ghost use Rattle.omega_lang_word_laws.specs.Complements.{ComplementsPartByName};

/// Shows that no word is accepted both by a deterministic automaton and by its complement.
pub fn complements_are_apart()
    ensures { ComplementsAreApart }
{}

/// Shows that each word is accepted by a deterministic automaton or by its complement, if each test of numbers passes
/// infinitely often or from some number on no more. The law of the excluded middle says that of each test.
pub fn complements_cover()
    ensures { ComplementsCover }
{}

/// Shows that a deterministic automaton and its complement part the words over names: each word is accepted by exactly
/// one of them. That one of them accepts it needs a premise, as `complements_cover` does, but for a word of which the
/// automaton sees an ultimately periodic part.
pub fn complements_part_by_name()
    ensures { ComplementsPartByName }
{}

/// Shows that a written complement has no other fault than `AutomatonFault::TooDeep` and `AutomatonFault::Expansion`.
pub fn complements_are_writable()
    ensures { ComplementsAreWritable }
{}

/// Shows that an automaton has one complement, so that `complement` can return no other.
pub fn complements_are_one()
    ensures { ComplementsAreOne }
{}
