//! Lists of places that are joined without being copied. Each place is in at most one list.
use omega_graph_search::{NONE, NumberTable};
use std::alloc::{AllocError, Global};

/// A list of places by its first and its last place, both `NONE` if it is empty.
#[derive(Clone, Copy)]
pub(crate) struct Chain {
    pub first: u32,
    pub last: u32,
}

impl Chain {
    /// The empty list.
    pub(crate) const EMPTY: Chain = Chain {
        first: NONE,
        last: NONE,
    };

    /// Whether the list has no places.
    pub(crate) fn is_empty(self) -> bool {
        self.first == NONE
    }
}

/// The place after each place in its list.
#[derive(Drop)]
pub(crate) struct Chains {
    following: NumberTable,
}

impl Chains {
    /// Makes empty lists only: no place has another after it.
    pub(crate) fn new(alloc: Global, places: usize) -> Result<Chains, AllocError> {
        let following = NumberTable::filled(alloc, places, NONE)?;
        Ok(Chains { following })
    }

    /// Returns the place after `place` in its list, or `NONE` at the end.
    #[inline(always)]
    pub(crate) fn next_place(&self, place: u32) -> u32 {
        self.following.at(place)
    }

    /// Puts `place` in front of `chain`.
    pub(crate) fn with_front(&mut self, place: u32, chain: Chain) -> Chain {
        self.following.put(place, chain.first);
        if chain.is_empty() {
            Chain {
                first: place,
                last: place,
            }
        } else {
            Chain {
                first: place,
                last: chain.last,
            }
        }
    }

    /// Appends `other` to `chain`.
    pub(crate) fn concatenation(&mut self, chain: Chain, other: Chain) -> Chain {
        if chain.is_empty() {
            return other;
        }
        if other.is_empty() {
            return chain;
        }
        self.following.put(chain.last, other.first);
        Chain {
            first: chain.first,
            last: other.last,
        }
    }
}
