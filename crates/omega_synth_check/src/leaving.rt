//! The edges that leave each state.

ghost use Rattle.std.specs.Prelude.{◌≡◌, ◌<◌, ◌^◌, ◌++◌, ◌∷◌, [], All, false, IfOk, IsOkUnless};
ghost use Rattle.std.specs.Prelude.{OnOk, length, map, nat_eq, replicate, set, slice_index_or};
ghost use Rattle.std.specs.List.{IsDistinct, list_any};
ghost use Rattle.omega_lang_runs.specs.Places.{ArePlaces};
ghost use Rattle.omega_synth_check.specs.private.Leaving.{AreLeavers, AreListed, IsLeavingOf};

use indexmap::IndexSet;
use omega_hoa_automaton::{Automaton, Refusal};
use omega_lang_runs::{EdgePlace, edge_places};
use omega_text::Numbers;
use std::alloc::Global;

/// The edges of an automaton by the states that they leave.
#[derive(Drop)]
pub(crate) struct Leaving {
    /// The places of all edges, by number.
    pub(crate) places: Vec<EdgePlace>,
    /// The numbers of the states that are defined, in the order written.
    pub(crate) numbers: IndexSet<u32>,
    /// For each of them the numbers of its edges, in rising order.
    pub(crate) lists: Vec<Numbers>,
}

impl Leaving {
    /// Returns the edges of `automaton`. Linear in its states and edges.
    pub(crate) fn of(alloc: Global, automaton: &Automaton) -> Result<Leaving, Refusal>
        ensures leaving { IfOk result (IsLeavingOf automaton.now) }
        ensures memory { IsOkUnless result Refusal.Memory }
    {
        let places = edge_places(alloc, automaton)?;
        let numbers = numbers_of(alloc, automaton)?;
        let lists = lists_of(alloc, automaton, places.as_slice())?;
        Ok(Leaving {
            places,
            numbers,
            lists,
        })
    }

    /// Returns the numbers of the edges that leave `state`; none if it is not defined.
    pub(crate) fn of_state(&self, _automaton: &Automaton, state: u32) -> &[u32]
        requires { IsLeavingOf _automaton.now self.now }
        ensures { AreLeavers _automaton.now state result.now }
    {
        match self.numbers.get_index_of(&state) {
            Some(index) => self.lists[index].as_slice(),
            None => &[],
        }
    }
}

/// Returns the numbers of the states that `automaton` defines, in the order written.
fn numbers_of(alloc: Global, automaton: &Automaton) -> Result<IndexSet<u32>, Refusal>
    ensures numbers { IfOk result
        (λ numbers. numbers.keys ≡ map (λ state. state.number) automaton.now.defined) }
    ensures distinct { IfOk result (λ numbers. IsDistinct nat_eq numbers.keys) }
    ensures memory { IsOkUnless result Refusal.Memory }
{
    automaton.keeps_limits();
    let mut numbers = IndexSet::new(alloc);
    for state in automaton.defined() {
        add_number(&mut numbers, state.number)?;
    }
    Ok(numbers)
}

/// Appends `number`, which the set does not have.
fn add_number(numbers: &mut IndexSet<u32>, number: u32) -> Result<(), Refusal>
    requires further { list_any (nat_eq number) numbers.old.keys ≡ false }
    requires distinct { IsDistinct nat_eq numbers.old.keys }
    ensures numbers { OnOk result (numbers.new.keys ≡ numbers.old.keys ++ number ∷ []) }
    ensures distinct { OnOk result (IsDistinct nat_eq numbers.new.keys) }
    ensures memory { IsOkUnless result Refusal.Memory }
{
    numbers.insert(number)?;
    Ok(())
}

/// Returns for each state that `automaton` defines the numbers of its edges, which are at these `places`.
fn lists_of(
    alloc: Global,
    automaton: &Automaton,
    places: &[EdgePlace],
) -> Result<Vec<Numbers>, Refusal>
    requires { ArePlaces automaton.now places.now }
    ensures lists { IfOk result
        (λ lists. AreListed places.now (length automaton.now.defined) (length places.now) lists.items) }
    ensures memory { IsOkUnless result Refusal.Memory }
{
    let mut lists = empty_lists(alloc, automaton.defined().len())?;
    for number in 0..automaton.edge_count() {
        let index = places[number as usize].state;
        add_to(alloc, &mut lists, index, number)?;
    }
    Ok(lists)
}

/// Returns `count` empty lists.
fn empty_lists(alloc: Global, count: usize) -> Result<Vec<Numbers>, Refusal>
    ensures lists { IfOk result (λ lists. lists.items ≡ replicate count []) }
    ensures memory { IsOkUnless result Refusal.Memory }
{
    let mut lists = Vec::with_capacity(alloc, count)?;
    for _index in 0..count {
        lists.push(Numbers::new())?;
    }
    Ok(lists)
}

/// Appends `number` to the list at the place `at`.
fn add_to(alloc: Global, lists: &mut Vec<Numbers>, at: usize, number: u32) -> Result<(), Refusal>
    requires { at < length lists.old.items }
    ensures added { OnOk result (lists.new.items
        ≡ set lists.old.items at (slice_index_or lists.old.items at [] ++ number ∷ [])) }
    ensures memory { IsOkUnless result Refusal.Memory }
{
    lists[at].push(alloc, number)?;
    Ok(())
}
