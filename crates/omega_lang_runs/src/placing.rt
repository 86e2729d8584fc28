ghost use Rattle.std.specs.Prelude.{◌≡◌, ◌++◌, IfOk, IsOkUnless, OnOk};
ghost use Rattle.omega_lang_runs.specs.Places.{ArePlaces};
ghost use Rattle.omega_lang_runs.specs.private.Placing.{places_in};

use crate::place::EdgePlace;
use omega_hoa_automaton::{Automaton, Refusal};
use std::alloc::Global;

/// Returns the places of the edges of `automaton`, by number. Linear in the states and the edges.
pub fn edge_places(alloc: Global, automaton: &Automaton) -> Result<Vec<EdgePlace>, Refusal>
    ensures places { IfOk result (λ places. ArePlaces automaton.now places.items) }
    ensures memory { IsOkUnless result Refusal.Memory }
{
    let mut places = Vec::new(alloc);
    for (at, state) in automaton.defined().iter().enumerate() {
        add_places(&mut places, at, state.edges.len())?;
    }
    Ok(places)
}

/// Appends the places of the first `count` edges of the state at index `state`.
fn add_places(places: &mut Vec<EdgePlace>, state: usize, count: usize) -> Result<(), Refusal>
    ensures places { OnOk result (places.new.items ≡ places.old.items ++ places_in state count) }
    ensures memory { IsOkUnless result Refusal.Memory }
{
    for index in 0..count {
        places.push(EdgePlace { state, index })?;
    }
    Ok(())
}
