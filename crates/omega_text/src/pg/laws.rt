//! Laws of every game text and its cut, for callers' proofs. Each function does nothing and states one law.

ghost use Rattle.omega_text.specs.pg.Laws.{EndsAreGaps, NamesAreLongest, NumbersAreLongest, NumbersArePlain};
ghost use Rattle.omega_text.specs.pg.Laws.{SignsAreLongest, SpellingsAreOne, TokensFollow, WordsAreLongest};

/// States that a text is a token of at most one kind and value, and that the value is at most `MOST_NUMBER`.
pub fn spellings_are_one()
    ensures { SpellingsAreOne }
{}

/// States that a number is `0` or begins with 1 to 9, and is at most `MOST_NUMBER`.
pub fn numbers_are_plain()
    ensures { NumbersArePlain }
{}

/// States that a numeral ends before a byte that is no digit.
pub fn numbers_are_longest()
    ensures { NumbersAreLongest }
{}

/// States that a word ends before a byte that no word continues with.
pub fn words_are_longest()
    ensures { WordsAreLongest }
{}

/// States that a sign is one byte, whatever follows.
pub fn signs_are_longest()
    ensures { SignsAreLongest }
{}

/// States that a name ends at its second quote, whatever follows.
pub fn names_are_longest()
    ensures { NamesAreLongest }
{}

/// States that white space, with a token written after it, is cut into that token.
pub fn tokens_follow()
    ensures { TokensFollow }
{}

/// States that white space to the end of a text is cut into nothing.
pub fn ends_are_gaps()
    ensures { EndsAreGaps }
{}
