//! Sets of letters as small disjunctions of conjunctions of literals (Morreale 1970; Minato 1993).
//!
//! A name on which a function depends parts it into two halves, its cofactors. What holds in one half and may not hold
//! in the other needs the literal, and what is left needs none. Each conjunction is as short, and none is needless, as
//! far as those before allow.
ghost use Rattle.std.specs.Prelude.{◌≤◌, IfErr};
ghost use Rattle.omega_ltl_determinization.specs.Limits.{most_names};
ghost use Rattle.omega_ltl_determinization.specs.Refusing.{IsLarge};

use crate::limits::MOST_CUBES;
use crate::words::{NAMES_OF_A_WORD, name_word};
use omega_ltl_determinization::all_letters;
use omega_ltl_shapes::Cube;
use omega_text::{Refusal, TaskFault};
use std::alloc::{AllocError, Global};

/// Returns conjunctions of literals on `names` names one of which holds at exactly the letters of a table. Fails with
/// [`TaskFault::TooLarge`] if they are over [`MOST_CUBES`].
pub(crate) fn cubes_of(alloc: Global, letters: &[u64], names: u32) -> Result<Vec<Cube>, Refusal>
    requires { names ≤ most_names }
    ensures { IfErr result IsLarge }
{
    let all = all_letters(alloc, names)?;
    // Bits of no letter may be covered.
    let upper = with_unused_bits(alloc, letters, all.as_slice())?;
    let mut cubes = Vec::new(alloc);
    cover_table(
        alloc,
        letters,
        upper.as_slice(),
        names,
        Cube::empty(),
        &mut cubes,
    )?;
    Ok(cubes)
}

/// Returns the letters of a table, and all bits that are in no letter of `all`.
fn with_unused_bits(alloc: Global, letters: &[u64], all: &[u64]) -> Result<Vec<u64>, AllocError> {
    let mut words = Vec::with_capacity(alloc, letters.len())?;
    for (word, every) in letters.iter().zip(all) {
        words.push(*word | !*every)?;
    }
    Ok(words)
}

/// Adds conjunctions on the names below `names` that cover `lower` and nothing outside `upper`, each with the literals
/// of `path`, and returns what they cover. Recurses as deep as there are names.
fn cover_table(
    alloc: Global,
    lower: &[u64],
    upper: &[u64],
    names: u32,
    path: Cube,
    cubes: &mut Vec<Cube>,
) -> Result<Vec<u64>, Refusal>
    requires { names ≤ most_names }
    ensures { IfErr result IsLarge }
{
    if names <= NAMES_OF_A_WORD {
        let word = cover_word(
            first_word(lower),
            first_word(upper),
            NAMES_OF_A_WORD,
            path,
            cubes,
        )?;
        return Ok(vec![in alloc; word]?);
    }
    if lower.iter().all(|word| *word == 0) {
        return Ok(vec![in alloc; 0; lower.len()]?);
    }
    if upper.iter().all(|word| *word == u64::MAX) {
        push(path, cubes)?;
        return Ok(vec![in alloc; u64::MAX; lower.len()]?);
    }
    let name = names - 1;
    let (low, high) = halves(lower);
    let (low_upper, high_upper) = halves(upper);
    let needed = letters_without(alloc, low, high_upper)?;
    let literal = path.with(name, true);
    let low_cover = cover_table(alloc, needed.as_slice(), low_upper, name, literal, cubes)?;
    let needed = letters_without(alloc, high, low_upper)?;
    let literal = path.with(name, false);
    let high_cover = cover_table(alloc, needed.as_slice(), high_upper, name, literal, cubes)?;
    let mut left = letters_without(alloc, low, low_cover.as_slice())?;
    let more = letters_without(alloc, high, high_cover.as_slice())?;
    unite(&mut left, more.as_slice());
    let both = common_letters(alloc, low_upper, high_upper)?;
    let cover = cover_table(alloc, left.as_slice(), both.as_slice(), name, path, cubes)?;
    Ok(table_of_halves(
        alloc,
        low_cover.as_slice(),
        high_cover.as_slice(),
        cover.as_slice(),
    )?)
}

/// Does in one word what [`cover_table`] does. Tables of fewer names are repeated in it.
fn cover_word(
    lower: u64,
    upper: u64,
    names: u32,
    path: Cube,
    cubes: &mut Vec<Cube>,
) -> Result<u64, Refusal>
    requires { names ≤ 6 }
    ensures { IfErr result IsLarge }
{
    if lower == 0 {
        return Ok(0);
    }
    if upper == u64::MAX || names == 0 {
        push(path, cubes)?;
        return Ok(u64::MAX);
    }
    let name = names - 1;
    let (low, high) = word_halves(lower, name);
    let (low_upper, high_upper) = word_halves(upper, name);
    let literal = path.with(name, true);
    let low_cover = cover_word(low & !high_upper, low_upper, name, literal, cubes)?;
    let literal = path.with(name, false);
    let high_cover = cover_word(high & !low_upper, high_upper, name, literal, cubes)?;
    let left = low & !low_cover | high & !high_cover;
    let cover = cover_word(left, low_upper & high_upper, name, path, cubes)?;
    let held = name_word(name, 0);
    Ok(low_cover & !held | high_cover & held | cover)
}

/// Adds a conjunction. Fails with [`TaskFault::TooLarge`] if there are too many.
fn push(cube: Cube, cubes: &mut Vec<Cube>) -> Result<(), Refusal>
    ensures { IfErr result IsLarge }
{
    if cubes.len() >= MOST_CUBES {
        return Err(Refusal::Task(TaskFault::TooLarge));
    }
    cubes.push(cube)?;
    Ok(())
}

/// Returns the first word of a table, or 0 if it is empty.
fn first_word(table: &[u64]) -> u64 {
    table.first().copied().unwrap_or(0)
}

/// Returns the two halves of a table: without the last name, and with it.
fn halves(table: &[u64]) -> (&[u64], &[u64]) {
    table.split_at(table.len() / 2)
}

/// Returns the two halves of a word by a name, each repeated in both: without the name, and with it.
fn word_halves(word: u64, name: u32) -> (u64, u64)
    requires { name ≤ 5 }
{
    let held = name_word(name, 0);
    let distance = 1u32 << name;
    let low = word & !held;
    let high = word & held;
    // Nothing goes round: the half that is rotated into is empty.
    (
        low | low.rotate_left(distance),
        high | high.rotate_right(distance),
    )
}

/// Returns the letters of one table that are not in another.
fn letters_without(alloc: Global, one: &[u64], other: &[u64]) -> Result<Vec<u64>, AllocError> {
    let mut words = Vec::with_capacity(alloc, one.len())?;
    for (word, more) in one.iter().zip(other) {
        words.push(*word & !*more)?;
    }
    Ok(words)
}

/// Returns the letters of both tables.
fn common_letters(alloc: Global, one: &[u64], other: &[u64]) -> Result<Vec<u64>, AllocError> {
    let mut words = Vec::with_capacity(alloc, one.len())?;
    for (word, more) in one.iter().zip(other) {
        words.push(*word & *more)?;
    }
    Ok(words)
}

/// Adds the letters of another table to one.
fn unite(one: &mut Vec<u64>, other: &[u64]) {
    for (word, more) in one.iter_mut().zip(other) {
        *word |= *more;
    }
}

/// Returns the table with these halves, to each of which the letters of `both` are added.
fn table_of_halves(
    alloc: Global,
    low: &[u64],
    high: &[u64],
    both: &[u64],
) -> Result<Vec<u64>, AllocError> {
    let mut words = Vec::with_capacity(alloc, low.len().saturating_mul(2))?;
    for (word, more) in low.iter().zip(both) {
        words.push(*word | *more)?;
    }
    for (word, more) in high.iter().zip(both) {
        words.push(*word | *more)?;
    }
    Ok(words)
}
