//! Laws of every Hanoi text and its cut, for callers' proofs. Each function does nothing and states one law.

ghost use Rattle.omega_text.specs.hoa.Laws.{AliasNamesAreLongest, ClosedAreLongest};
ghost use Rattle.omega_text.specs.hoa.Laws.{NumbersAreLongest, NumbersArePlain, SpellingsAreOne};
ghost use Rattle.omega_text.specs.hoa.Laws.{TokensFollow, WhiteIsGap, WordsAreLongest};

/// States that a text is a token of at most one kind and value, and that the value is at most `MOST_NUMBER`.
pub fn spellings_are_one()
    ensures { SpellingsAreOne }
{}

/// States that a number is `0` or begins with 1 to 9, and is at most `MOST_NUMBER`.
pub fn numbers_are_plain()
    ensures { NumbersArePlain }
{}

/// States that a word ends before a byte that no word continues with, unless that is a colon.
pub fn words_are_longest()
    ensures { WordsAreLongest }
{}

/// States that an alias name ends before a byte that no word continues with.
pub fn alias_names_are_longest()
    ensures { AliasNamesAreLongest }
{}

/// States that digits end before a byte that is no digit.
pub fn numbers_are_longest()
    ensures { NumbersAreLongest }
{}

/// States that header names, strings, marks and signs end at their last byte, whatever follows.
pub fn closed_are_longest()
    ensures { ClosedAreLongest }
{}

/// States that white space is a gap.
pub fn white_is_gap()
    ensures { WhiteIsGap }
{}

/// States that a gap, with a token written after it, is cut into that token.
pub fn tokens_follow()
    ensures { TokensFollow }
{}
