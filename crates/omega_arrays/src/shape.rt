//! Which arrays encode a game.
ghost use Rattle.std.specs.Prelude.{◌≡◌, ◌+◌, ◌<◌, IfSome, None, length, nat_lt, option_map, position};
ghost use Rattle.omega_arrays.specs.Arrays.{node_count};
ghost use Rattle.omega_arrays.specs.Shape.{IsGameShape, entry, first_above, first_fall};
ghost use Rattle.omega_arrays.specs.Shape.{miscounted, wrong_entry, wrong_length, wrong_start};

use crate::arrays::Arrays;
use crate::fault::WrongEntry;
use omega_text::MOST_NUMBER;

const PRIORITIES: u32 = 0;

const OWNERS: u32 = 1;

const STARTS: u32 = 2;

const SUCCESSORS: u32 = 3;

impl Arrays<'_> {
    /// Returns the first entry that is wrong, or none exactly if the arrays encode a game. The lengths are judged
    /// first, then the priorities, the owners, the starts and the successors. Takes linear time, and no memory.
    pub fn wrong_entry(&self) -> Option<WrongEntry>
        ensures first { result ≡ wrong_entry self.now }
        ensures shape { result ≡ None → IsGameShape self.now }
    {
        self.first_wrong()
    }

    /// Returns the first entry that is wrong.
    fn first_wrong(&self) -> Option<WrongEntry>
        ensures { result ≡ wrong_entry self.now }
    {
        if let Some(wrong) = self.wrong_length() {
            return Some(wrong);
        }
        let count = self.priorities().len();
        if let Some(wrong) = first_above(PRIORITIES, MOST_NUMBER as usize, self.priorities()) {
            return Some(wrong);
        }
        if let Some(wrong) = first_owner_above(OWNERS, 1, self.owners()) {
            return Some(wrong);
        }
        if let Some(wrong) = self.wrong_start() {
            return Some(wrong);
        }
        first_above(SUCCESSORS, count - 1, self.successors())
    }

    /// Returns the first entry by which a length is wrong.
    fn wrong_length(&self) -> Option<WrongEntry>
        ensures { result ≡ wrong_length self.now }
    {
        let count = self.priorities().len();
        if count == 0 {
            return Some(wrong_at(PRIORITIES, 0));
        }
        if let Some(wrong) = miscounted_entry(OWNERS, self.owners().len(), count) {
            return Some(wrong);
        }
        miscounted_entry(STARTS, self.starts().len(), count + 1)
    }

    /// Returns the first start that is wrong.
    fn wrong_start(&self) -> Option<WrongEntry>
        requires { length self.now.starts ≡ node_count self.now + 1 }
        ensures { result ≡ wrong_start self.now }
    {
        let starts = self.starts();
        let count = self.priorities().len();
        if starts[0] != 0 {
            return Some(wrong_at(STARTS, 0));
        }
        if let Some(place) = self.first_fall() {
            return Some(wrong_at(STARTS, place + 1));
        }
        if starts[count] as usize != self.successors().len() {
            return Some(wrong_at(STARTS, count));
        }
        None
    }

    /// Returns the first place whose successors end before its first one or there.
    fn first_fall(&self) -> Option<usize>
        requires { length self.now.starts ≡ node_count self.now + 1 }
        ensures first { result ≡ first_fall self.now }
        ensures inside { IfSome result (λ place. place < node_count self.now) }
    {
        let starts = self.starts();
        for place in 0..self.priorities().len() {
            if starts[place + 1] <= starts[place] {
                return Some(place);
            }
        }
        None
    }
}

/// Returns the entry of the array with number `array` at the index `place`.
fn wrong_at(array: u32, place: usize) -> WrongEntry
    ensures { result ≡ entry array place }
{
    WrongEntry {
        array,
        place: place as u64,
    }
}

/// Returns the first entry that is missing, or that is too many, in an array with `count` entries in place of `wanted`
/// ones.
pub(crate) fn miscounted_entry(array: u32, count: usize, wanted: usize) -> Option<WrongEntry>
    ensures { result ≡ miscounted array count wanted }
{
    if count == wanted {
        return None;
    }
    Some(wrong_at(array, count.min(wanted)))
}

/// Returns the first entry over `most`.
fn first_above(array: u32, most: usize, entries: &[u32]) -> Option<WrongEntry>
    ensures { result ≡ first_above array most entries.now }
{
    wrong_at_first(array, place_above(most, entries))
}

/// Returns the index of the first entry over `most`.
fn place_above(most: usize, entries: &[u32]) -> Option<usize>
    ensures { result ≡ position (λ x. nat_lt most x) entries.now }
{
    entries.iter().position(|entry| *entry as usize > most)
}

/// Returns the first number of an owner over `most`.
pub(crate) fn first_owner_above(array: u32, most: u8, entries: &[u8]) -> Option<WrongEntry>
    ensures { result ≡ first_above array most entries.now }
{
    wrong_at_first(array, owner_above(most, entries))
}

/// Returns the index of the first number of an owner over `most`.
fn owner_above(most: u8, entries: &[u8]) -> Option<usize>
    ensures { result ≡ position (λ x. nat_lt most x) entries.now }
{
    entries.iter().position(|entry| *entry > most)
}

/// Returns the entry at the index `found`, if there is one.
fn wrong_at_first(array: u32, found: Option<usize>) -> Option<WrongEntry>
    ensures { result ≡ option_map (entry array) found }
{
    match found {
        Some(place) => Some(wrong_at(array, place)),
        None => None,
    }
}
