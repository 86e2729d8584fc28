//! What the inputs make known in some rounds of a state.

ghost use Rattle.std.specs.Prelude.{◌≡◌, [], ℕ, Bool, OnOk};
ghost use Rattle.omega_circuit_automaton.specs.private.Lanes.{AreHeld, KeepsHeld};
ghost use Rattle.omega_circuit_automaton.specs.private.Ternary.{Matches};

use crate::ternary::Ternary;
use std::alloc::{AllocError, Global};

/// A variable whose value is known.
#[derive(Clone, Copy, Debug)]
pub(crate) struct Entry {
    /// The variable.
    pub(crate) variable: u32,
    /// Its value.
    pub(crate) value: bool,
}

/// Values of variables, which are all forgotten in one step (Briggs and Torczon 1993).
#[derive(Drop)]
pub(crate) struct Table {
    /// The variables whose values are known.
    pub(crate) entries: Vec<Entry>,
    /// By variable, where its entry stands if it has one.
    places: Vec<usize>,
    /// By variable whose value is unknown, the place of an input on which it may depend.
    origins: Vec<u32>,
}

impl Table {
    /// Returns a table of so many variables, of which none is known.
    pub(crate) fn new(alloc: Global, count: usize) -> Result<Table, AllocError> {
        let entries = Vec::new(alloc);
        let places = vec![in alloc; 0; count]?;
        let origins = vec![in alloc; 0; count]?;
        Ok(Table {
            entries,
            places,
            origins,
        })
    }

    /// Forgets all values.
    pub(crate) fn forget(&mut self)
        ensures { self.new.entries.items ≡ [] }
    {
        self.entries.clear();
    }

    /// Puts an input on which a variable may depend.
    pub(crate) fn put_origin(&mut self, variable: u32, origin: u32)
        ensures { self.new.entries.items ≡ self.old.entries.items }
    {
        if let Some(slot) = self.origins.get_mut(variable as usize) {
            *slot = origin;
        }
    }

    /// Puts what is known of a variable.
    pub(crate) fn put(&mut self, variable: u32, value: Ternary) -> Result<(), AllocError>
        ensures { OnOk result (KeepsHeld (λ round. Matches value (round variable)) self.old.entries.items
            self.new.entries.items) }
    {
        match value {
            Ternary::Unknown => Ok(()),
            Ternary::True => self.push(variable, true),
            Ternary::False => self.push(variable, false),
        }
    }

    /// Puts the value of a variable.
    fn push(&mut self, variable: u32, value: bool) -> Result<(), AllocError>
        ensures { OnOk result (KeepsHeld (λ round. round variable ≡ value) self.old.entries.items
            self.new.entries.items) }
    {
        if let Some(place) = self.places.get_mut(variable as usize) {
            *place = self.entries.len();
        }
        self.entries.push(Entry { variable, value })?;
        Ok(())
    }

    /// Returns what is known of a variable.
    pub(crate) fn value_at(&self, variable: u32) -> Ternary
        ensures { (round : ℕ → Bool) → AreHeld round self.now.entries.items
            → Matches result (round variable) }
    {
        let place = self.places.get(variable as usize).copied().unwrap_or(0);
        match self.entries.get(place) {
            Some(entry) if entry.variable == variable => Ternary::of(entry.value),
            _ => Ternary::Unknown,
        }
    }

    /// Returns an input on which a literal may depend.
    pub(crate) fn origin_at(&self, literal: u32) -> u32 {
        self.origins.get(literal as usize / 2).copied().unwrap_or(0)
    }
}
