//! The letters of a leaf over the names of the whole.
ghost use Rattle.std.specs.Prelude.{◌≤◌, IfErr};
ghost use Rattle.omega_ltl_determinization.specs.Limits.{most_names};
ghost use Rattle.omega_ltl_determinization.specs.Refusing.{IsLarge};

use crate::leaf::Leaf;
use crate::limits::MOST_PART_WORDS;
use omega_graph_search::number_of;
use omega_ltl_determinization::{LetterSets, has_letter, word_count};
use omega_text::{Refusal, TaskFault};
use std::alloc::{AllocError, Global};

/// Returns the letters of the edges of a leaf, over letters that give truth values to `names` names. Fails with
/// [`TaskFault::TooLarge`] if they take too many words.
pub(crate) fn wide_letters(alloc: Global, leaf: &Leaf, names: u32) -> Result<LetterSets, Refusal>
    requires { names ≤ most_names }
    ensures { IfErr result IsLarge }
{
    let width = word_count(names);
    let automaton = &leaf.automaton;
    if automaton.edges.len().saturating_mul(width) > MOST_PART_WORDS {
        return Err(Refusal::Task(TaskFault::TooLarge));
    }
    let narrow = narrow_letters(alloc, leaf.names.as_slice(), names)?;
    let mut wide = LetterSets::new(alloc, width);
    let mut words = Vec::with_capacity(alloc, width)?;
    for edge in 0..number_of(automaton.edges.len()) {
        widen(automaton.letters_of(edge), narrow.as_slice(), &mut words)?;
        wide.push(words.as_slice())?;
    }
    Ok(wide)
}

/// Returns for each letter of the whole the letter of a leaf whose names have these numbers.
fn narrow_letters(alloc: Global, own: &[u32], names: u32) -> Result<Vec<u32>, AllocError>
    requires { names ≤ most_names }
{
    let count = 1u32 << names;
    let mut narrow = Vec::with_capacity(alloc, count as usize)?;
    for letter in 0..count {
        narrow.push(narrow_letter(own, letter))?;
    }
    Ok(narrow)
}

/// Returns the letter of a leaf whose names have these numbers at a letter of the whole.
fn narrow_letter(own: &[u32], letter: u32) -> u32 {
    let mut narrow = 0u32;
    let mut bit = 1u32;
    for name in own {
        if *name < 32 && letter >> *name & 1 == 1 {
            narrow |= bit;
        }
        bit = bit.rotate_left(1);
    }
    narrow
}

/// Writes the letters of the whole at which a leaf is at a letter of `letters`.
fn widen(letters: &[u64], narrow: &[u32], words: &mut Vec<u64>) -> Result<(), AllocError> {
    words.clear();
    let mut word = 0u64;
    let mut bit = 1u64;
    for letter in narrow {
        if has_letter(letters, *letter) {
            word |= bit;
        }
        bit = bit.rotate_left(1);
        if bit == 1 {
            words.push(word)?;
            word = 0;
        }
    }
    // Fewer than 64 letters take one word.
    if bit != 1 {
        words.push(word)?;
    }
    Ok(())
}
