//! The pairs that a search found, and their numbers, which are their positions.

ghost use Rattle.std.specs.Prelude.{◌≡◌, ◌<◌, [], get_or, length, IfOk, IfSome, IsOkUnless, OnOk};
ghost use Rattle.indexmap.specs.IndexSet.{insert_key};
ghost use Rattle.omega_lang_product.specs.Pairs.{pair_number, same_pair};

use crate::numbers::number_after;
use crate::pairs::pair_at;
use indexmap::IndexSet;
use omega_text::Refusal;
use std::alloc::Global;
use std::marker::Model;

/// The most states of a second automaton of which the table has places.
const MOST_WIDTH: usize = 16;

/// The pairs found so far, each once, in the order in which they were found. Contracts see the list of them.
///
/// If the second automaton is small, as that of a formula, a table says by both states where a pair stands. It is
/// looked up there, so that nothing rests on the table. Only a pair that does not stand there is hashed.
#[derive(Drop)]
pub(crate) struct FoundPairs {
    pairs: IndexSet<(u32, u32)>,
    /// At the place of a pair the number that it had when it was last met.
    numbers: Vec<u32>,
    /// How many places there are for each first state, none if there is no table.
    width: usize,
}

impl Model for FoundPairs {
    ghost use Rattle.std.specs.Prelude.{List, ℕ};

    ghost Value = { List (ℕ × ℕ) };

    ghost view = { λ f. f.pairs.keys };
}

impl FoundPairs {
    /// Returns no pairs yet, of automata with so many states.
    pub(crate) fn new(alloc: Global, firsts: usize, seconds: usize) -> Result<FoundPairs, Refusal>
        ensures empty { IfOk result (λ found. found ≡ []) }
        ensures memory { IsOkUnless result Refusal.Memory }
    {
        let width = if seconds <= MOST_WIDTH { seconds } else { 0 };
        let numbers = vec![in alloc; u32::MAX; firsts.saturating_mul(width)]?;
        let pairs = IndexSet::with_capacity(alloc, firsts)?;
        Ok(FoundPairs {
            pairs,
            numbers,
            width,
        })
    }

    /// Returns how many they are.
    pub(crate) fn len(&self) -> usize
        ensures len { result ≡ length self.now }
    {
        self.pairs.len()
    }

    /// Returns the pair with the number `number`.
    pub(crate) fn at(&self, number: usize) -> (u32, u32)
        requires { number < length self.now }
        ensures pair { result ≡ get_or self.now number result }
        ensures number { number ≡ pair_number self.now result }
    {
        pair_at(&self.pairs, number)
    }

    /// Adds `pair`, if it is not among them, and returns its number. Also fails with [Refusal::Memory] if that is over
    /// 2^32 - 1.
    pub(crate) fn insert(&mut self, pair: (u32, u32)) -> Result<u32, Refusal>
        ensures pairs { OnOk result (self.new ≡ insert_key same_pair self.old pair) }
        ensures number { IfOk result (λ number. number ≡ pair_number self.old pair) }
        ensures memory { IsOkUnless result Refusal.Memory }
    {
        let place = self.place_of(pair);
        if let Some(number) = self.number_at(place, pair) {
            return Ok(number);
        }
        let (position, _new) = self.pairs.insert_full(pair)?;
        let number = number_after(0, position)?;
        if place < self.numbers.len() {
            self.numbers[place] = number;
        }
        Ok(number)
    }

    /// Returns the place of `pair` in the table. It need not be within, nor be that of no other pair.
    fn place_of(&self, pair: (u32, u32)) -> usize {
        (pair.0 as usize)
            .wrapping_mul(self.width)
            .wrapping_add(pair.1 as usize)
    }

    /// Returns the number of `pair`, if the table has it at `place`.
    fn number_at(&self, place: usize, pair: (u32, u32)) -> Option<u32>
        ensures within { IfSome result (λ number. number < length self.now) }
        ensures pair { IfSome result (λ number. get_or self.now number pair ≡ pair) }
        ensures number { IfSome result (λ number. number ≡ pair_number self.now pair) }
    {
        let number = *self.numbers.get(place)?;
        if number as usize >= self.pairs.len() || self.at(number as usize) != pair {
            return None;
        }
        Some(number)
    }

    /// Returns them as a set.
    pub(crate) fn into_set(self) -> IndexSet<(u32, u32)>
        ensures { result.keys ≡ self }
    {
        let FoundPairs {
            pairs,
            numbers: _,
            width: _,
        } = self;
        pairs
    }
}
