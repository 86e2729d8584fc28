//! The valuations of the latches that are reached, by their numbers.

ghost use Rattle.std.specs.Prelude.{◌≡◌, [], ◌∷◌, IfOk};
ghost use Rattle.omega_circuit_automaton.specs.private.Cuts.{IsNumberOf};

use indexmap::IndexSet;
use omega_hoa_edges::MOST_STATES;
use omega_text::{Refusal, Seq, TaskFault};
use std::alloc::{AllocError, Global};

/// The valuations that were found, in the order in which they were found.
#[derive(Drop)]
pub(crate) struct Valuations {
    /// The same valuations, to be looked up. What it says is looked up in `all`.
    places: IndexSet<Vec<bool>>,
    /// The valuations by their numbers.
    pub(crate) all: Vec<Seq<bool>>,
}

impl Valuations {
    /// Returns the first valuation alone.
    pub(crate) fn new(alloc: Global, first: Vec<bool>) -> Result<Valuations, AllocError>
        ensures { IfOk result (λ valuations. valuations.all.items ≡ first.items ∷ []) }
    {
        let mut places = IndexSet::new(alloc);
        places.insert(Vec::from_slice(alloc, first.as_slice())?)?;
        let all = vec![in alloc; Seq::from_vec(first)]?;
        Ok(Valuations { places, all })
    }

    /// Returns the number of a valuation, which is appended if it is not there. Fails with [TaskFault::TooLarge] if
    /// there are over `MOST_STATES`.
    pub(crate) fn number_of(&mut self, alloc: Global, valuation: &[bool]) -> Result<u32, Refusal>
        ensures { IfOk result (IsNumberOf valuation.now self.old.all.items self.new.all.items) }
    {
        if self.all.len() > MOST_STATES {
            return Err(Refusal::Task(TaskFault::TooLarge));
        }
        let number = self.place_of(alloc, valuation)?;
        if number < self.all.len() && self.all[number].as_slice() == valuation {
            return Ok(number as u32);
        }
        let number = self.all.len() as u32;
        let added = Seq::from_vec(Vec::from_slice(alloc, valuation)?);
        self.all.push(added)?;
        Ok(number)
    }

    /// Returns the place of a valuation among `places`, to which it is added if it is not there.
    fn place_of(&mut self, alloc: Global, valuation: &[bool]) -> Result<usize, AllocError>
        ensures { self.new.all.items ≡ self.old.all.items }
    {
        if let Some(place) = self.places.get_index_of(valuation) {
            return Ok(place);
        }
        let key = Vec::from_slice(alloc, valuation)?;
        let (place, _new) = self.places.insert_full(key)?;
        Ok(place)
    }
}
