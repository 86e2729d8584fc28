//! Letters, and sets of letters as tables of bits. A letter gives a truth value to each name: bit i of its number is
//! that of the name i. The letter l is in a set if bit l % 64 of the word l / 64 of its table is set.
ghost use Rattle.std.specs.Prelude.{◌≡◌, ◌≤◌};
ghost use Rattle.omega_ltl_determinization.specs.Letters.{words_of};
ghost use Rattle.omega_ltl_determinization.specs.Limits.{most_names};

use std::alloc::{AllocError, Global};

/// How many bits a word has.
const BITS: u32 = 64;

/// How many names have as many letters as a word has bits.
const NAMES_OF_A_WORD: u32 = 6;

/// Returns how many words the table of a set of letters over `names` names has: at least one.
pub fn word_count(names: u32) -> usize
    requires { names ≤ most_names }
    ensures { result ≡ words_of names }
{
    1 << names.saturating_sub(NAMES_OF_A_WORD)
}

/// Returns the table of all letters over `names` names.
pub fn all_letters(alloc: Global, names: u32) -> Result<Vec<u64>, AllocError>
    requires { names ≤ most_names }
{
    let word = match names {
        0 => 0x1,
        1 => 0x3,
        2 => 0xf,
        3 => 0xff,
        4 => 0xffff,
        5 => 0xffff_ffff,
        _ => u64::MAX,
    };
    Ok(vec![in alloc; word; word_count(names)]?)
}

/// Whether a letter is in a set.
#[inline(always)]
pub fn has_letter(set: &[u64], letter: u32) -> bool {
    match set.get((letter / BITS) as usize) {
        Some(word) => *word >> (letter % BITS) & 1 == 1,
        None => false,
    }
}

/// Returns the least letter of a set, or 0 if it is empty.
pub(crate) fn first_letter(set: &[u64]) -> u32 {
    let mut first = 0u32;
    for word in set {
        if *word != 0 {
            return first.wrapping_add(word.trailing_zeros());
        }
        first = first.wrapping_add(BITS);
    }
    0
}
