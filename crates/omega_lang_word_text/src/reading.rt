//! The word that a text says.

ghost use Rattle.std.specs.Prelude.{◌≡◌, ◌≤◌, length, map, IfErr, IfOk};
ghost use Rattle.omega_text.specs.Lexeme.{lexeme_of};
ghost use Rattle.omega_text.specs.Limits.{most_text};
ghost use Rattle.omega_lang_word_text.specs.Text.{IsReadWordRefusal, IsWordText};

use crate::letters::read_letters;
use crate::tokens::word_tokens;
use crate::translating::translation_of;
use omega_lang_lasso_word::SymbolicWord;
use omega_text::{Cursor, MOST_TEXT, Refusal, Seq, TextFault};
use std::alloc::Global;

/// Returns the symbolic word that the text `bytes` says, in the form in which Spot and `empty --word` write words:
/// `a & !b; 1; cycle{a; b | "c d"}`.
///
/// Letters have `;` after each, and those of the cycle, at least one, stand in `cycle{..}` with `;` between them. A
/// letter is a label expression of the Hanoi format (HOA v1), with names in place of numbers and of aliases, and with
/// `1` and `0` in place of `t` and `f`. A name stands in quotes unless it is an identifier that Spot reads as a name
/// (tl.pdf, atomic propositions), so `cycle`, `t`, `F1` and `U` need quotes. White space and comments may stand between
/// tokens.
///
/// The names are numbered in the order of their first occurrences. Letters may have any depth. Linear time, without
/// recursion.
///
/// Fails with [TextFault::TooLong] above `MOST_TEXT` bytes. Otherwise fails with [TextFault::Lex] or
/// [TextFault::Number] at the least place, or else with [TextFault::Syntax] at the first token with which no word goes
/// on, or at the length of the text.
///
/// A text says at most one word, and one that says a word has no refusal: in `laws`, `words_of_texts_are_one` and
/// `words_are_not_refused`. Names are strings, by `names_are_strings` there.
pub fn read_word(alloc: Global, bytes: &[u8]) -> Result<SymbolicWord, Refusal>
    ensures word { IfOk result (IsWordText bytes.now) }
    ensures refused { IfErr result (IsReadWordRefusal bytes.now) }
{
    if bytes.len() > MOST_TEXT {
        return Err(Refusal::Text(TextFault::TooLong));
    }
    let own = word_tokens(alloc, bytes)?;
    let made = translation_of(alloc, own.as_slice())?;
    let mut source = Cursor::new(made.tokens.as_slice(), bytes.len());
    let letters = read_letters(alloc, &mut source)?;
    Ok(SymbolicWord {
        names: Seq::from_vec(made.names),
        stem: Seq::from_vec(letters.stem),
        first: letters.cycle.first,
        others: Seq::from_vec(letters.cycle.others),
    })
}
