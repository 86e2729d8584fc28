//! The states that a search meets, and stems to them.

ghost use Rattle.std.specs.Prelude.{◌≡◌, ◌<◌, ◌++◌, ◌∷◌, [], Contains, IfOk};
ghost use Rattle.std.specs.Prelude.{IsOkUnless, OnOk, false, if◌then◌else◌, length};
ghost use Rattle.omega_hoa_automaton.specs.Branching.{has_universal_branching};
ghost use Rattle.omega_synth_check.specs.private.Meeting.{Extends, HasStarts, IsEntered, IsMetOf, state_at};
ghost use Rattle.omega_synth_check.specs.WaysOut.{IsStemTo};

use indexmap::IndexSet;
use omega_hoa_automaton::{Automaton, Refusal};
use omega_text::Seq;
use std::alloc::Global;

/// How a state was entered: from a state that was met before, and by an edge.
#[derive(Clone, Copy)]
pub(crate) struct StateEntry {
    /// The place of the state among those that were met.
    pub(crate) from: usize,
    /// The number of the edge.
    pub(crate) edge: u32,
}

/// The states that a search has met, each once.
#[derive(Drop)]
pub(crate) struct MetStates {
    /// The states in the order in which they were met.
    pub(crate) states: IndexSet<u32>,
    /// For each of them how it was entered; none for a start.
    pub(crate) entries: Vec<Option<StateEntry>>,
}

impl MetStates {
    /// Returns the starts of `automaton` as the states that were met.
    pub(crate) fn starts(alloc: Global, automaton: &Automaton) -> Result<MetStates, Refusal>
        requires { has_universal_branching automaton.now ≡ false }
        ensures met { IfOk result (IsMetOf automaton.now) }
        ensures starts { IfOk result (λ met. HasStarts automaton.now met.states.keys) }
        ensures memory { IsOkUnless result Refusal.Memory }
    {
        automaton.keeps_limits();
        let mut met = MetStates {
            states: IndexSet::new(alloc),
            entries: Vec::new(alloc),
        };
        for start in automaton.starts() {
            met.add(automaton, start.as_slice()[0], None)?;
        }
        Ok(met)
    }

    /// Adds `state` with its `entry`, unless it was met before.
    pub(crate) fn add(
        &mut self,
        _automaton: &Automaton,
        state: u32,
        entry: Option<StateEntry>,
    ) -> Result<(), Refusal>
        requires met { IsMetOf _automaton.now self.old }
        requires entered { IsEntered _automaton.now self.old.states.keys
            (length self.old.states.keys) entry state }
        ensures met { OnOk result (IsMetOf _automaton.now self.new) }
        ensures extends { OnOk result (Extends self.old.states.keys self.new.states.keys) }
        ensures there { OnOk result (Contains self.new.states.keys state) }
        ensures memory { IsOkUnless result Refusal.Memory }
    {
        let placed = self.states.insert_full(state)?;
        note(&mut self.entries, placed.1, entry)?;
        Ok(())
    }

    /// Returns how many states were met.
    pub(crate) fn len(&self) -> usize
        ensures { result ≡ length self.now.states.keys }
    {
        self.states.len()
    }

    /// Returns the state at `place`.
    pub(crate) fn state_at(&self, place: usize) -> u32
        requires { place < length self.now.states.keys }
        ensures { result ≡ state_at self.now.states.keys place }
    {
        self.states.as_slice()[place]
    }

    /// Returns the numbers of edges that lead from a start to the state at `place`. Linear in their count.
    pub(crate) fn stem(
        &self,
        alloc: Global,
        _automaton: &Automaton,
        place: usize,
    ) -> Result<Seq<u32>, Refusal>
        requires met { IsMetOf _automaton.now self.now }
        requires place { place < length self.now.states.keys }
        ensures stem { IfOk result (IsStemTo _automaton.now (state_at self.now.states.keys place)) }
        ensures memory { IsOkUnless result Refusal.Memory }
    {
        let entries = self.entries.as_slice();
        let mut numbers = Vec::new(alloc);
        let mut at = place;
        while let Some(entry) = entries[at] {
            numbers.push(entry.edge)?;
            at = entry.from;
        }
        numbers.reverse();
        Ok(Seq::from_vec(numbers))
    }
}

/// Appends `entry` if it is that of a `new` state.
fn note(
    entries: &mut Vec<Option<StateEntry>>,
    new: bool,
    entry: Option<StateEntry>,
) -> Result<(), Refusal>
    ensures noted { OnOk result
        (entries.new.items ≡ (if new then entries.old.items ++ entry ∷ [] else entries.old.items)) }
    ensures memory { IsOkUnless result Refusal.Memory }
{
    if new {
        entries.push(entry)?;
    }
    Ok(())
}
