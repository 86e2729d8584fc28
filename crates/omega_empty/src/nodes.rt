ghost use Rattle.std.specs.Prelude.{◌≡◌, ◌+◌, ◌++◌, ◌<◌, ◌≤◌, ◌↔◌, [], ◌∷◌, IfOk};
ghost use Rattle.std.specs.Prelude.{IsOkUnless, IsTrue, OnOk, length, map, slice_index};
ghost use Rattle.std.specs.Bool.{OnTrue};
ghost use Rattle.omega_text.specs.Limits.{most_number};
ghost use Rattle.omega_hoa_automaton.specs.Automaton.{edge_count, edges_from};
ghost use Rattle.omega_empty.specs.Counters.{counter_after, counters};
ghost use Rattle.omega_empty.specs.EmptinessGame.{edge_id, is_usable, state_id};
ghost use Rattle.omega_empty.specs.private.layout.Nodes.{all_edges_at, begun, body_edge, counter_nodes};
ghost use Rattle.omega_empty.specs.private.layout.Nodes.{edge_at, edges_at, linked, state_at, states_at};
ghost use Rattle.omega_empty.specs.private.layout.Ranges.{usable_in};
ghost use Rattle.omega_empty.specs.private.layout.Marks.{AreMarksBelow};
ghost use Rattle.omega_empty.specs.private.layout.Ready.{IsPlainEdge, IsPlainState};

use crate::edge_ranges::EdgeRange;
use crate::judged::Judged;
use omega_game_values::{GameBuilder, Player};
use omega_hoa_automaton::{EdgeRef, Refusal, State};

/// Adds the nodes of `counter`.
pub(crate) fn add_counter(
    builder: &mut GameBuilder,
    judged: &Judged<'_>,
    counter: u32,
) -> Result<(), Refusal>
    requires counter { counter < counters judged.now.kind }
    ensures ok { OnOk result (builder.new ≡ builder.old ++ counter_nodes judged.now counter) }
    ensures memory { IsOkUnless result Refusal.Memory }
{
    add_states(builder, judged, counter)?;
    add_edges(builder, judged, counter)
}

/// Adds the nodes of all states at `counter`.
fn add_states(builder: &mut GameBuilder, judged: &Judged<'_>, counter: u32) -> Result<(), Refusal>
    requires counter { counter < counters judged.now.kind }
    ensures ok { OnOk result (builder.new ≡ builder.old ++ states_at judged.now counter) }
    ensures memory { IsOkUnless result Refusal.Memory }
{
    for state in 0..judged.states() {
        add_state(builder, judged, counter, state)?;
    }
    Ok(())
}

/// Adds the node of `state` at `counter`.
fn add_state(
    builder: &mut GameBuilder,
    judged: &Judged<'_>,
    counter: u32,
    state: u32,
) -> Result<(), Refusal>
    requires counter { counter < counters judged.now.kind }
    requires state { state < judged.now.automaton.states }
    ensures ok { OnOk result (builder.new ≡ builder.old ++ state_at judged.now counter state ∷ []) }
    ensures memory { IsOkUnless result Refusal.Memory }
{
    judged.keeps_ready();
    let base = counter * judged.span();
    let id = base + state;
    let first = base + judged.states();
    let range = judged.range(state);
    let some = add_linked(builder, id, first, judged.usable_flags(), range)?;
    if some {
        return Ok(());
    }
    let sink = judged.sink();
    builder.add_node(id, 0, Player::Zero, sink)?;
    Ok(())
}

/// Adds a node of priority 0 that leads to the usable edges of `range`, if there are any. The identifiers of the edges
/// are numbered from `first`. Returns whether there is a usable edge.
fn add_linked(
    builder: &mut GameBuilder,
    id: u32,
    first: u32,
    usable: &[bool],
    range: EdgeRange,
) -> Result<bool, Refusal>
    requires id { id ≤ most_number }
    requires ordered { range.first ≤ range.end }
    requires within { range.end ≤ length usable.now }
    requires last { first + length usable.now ≤ most_number }
    ensures ok { OnOk result (builder.new
        ≡ builder.old ++ begun id (map (λ number. first + number) (usable_in usable.now range))) }
    ensures some { IfOk result (λ some. IsTrue some ↔ (0 < length (usable_in usable.now range))) }
    ensures memory { IsOkUnless result Refusal.Memory }
{
    let mut some = false;
    for number in range.first..range.end {
        let here = is_usable(usable, number);
        if !here {
            continue;
        }
        link(builder, id, some, first + number)?;
        some = true;
    }
    Ok(some)
}

/// Whether the edge of this `number` is usable.
fn is_usable(usable: &[bool], number: u32) -> bool
    requires { number < length usable.now }
    ensures { result ≡ is_usable usable.now number }
{
    usable[number as usize]
}

/// Adds `successor` to the last node if there is `some`, or else to a new node of priority 0.
fn link(builder: &mut GameBuilder, id: u32, some: bool, successor: u32) -> Result<(), Refusal>
    requires begun { OnTrue some (0 < length builder.old) }
    requires id { id ≤ most_number }
    requires successor { successor ≤ most_number }
    ensures ok { OnOk result (builder.new ≡ linked some id successor builder.old) }
    ensures memory { IsOkUnless result Refusal.Memory }
{
    if some {
        builder.add_successor(successor)
    } else {
        builder.add_node(id, 0, Player::Zero, successor)
    }
}

/// Adds the nodes of all usable edges at `counter`.
fn add_edges(builder: &mut GameBuilder, judged: &Judged<'_>, counter: u32) -> Result<(), Refusal>
    requires counter { counter < counters judged.now.kind }
    ensures ok { OnOk result (builder.new ≡ builder.old ++ all_edges_at judged.now counter) }
    ensures memory { IsOkUnless result Refusal.Memory }
{
    judged.keeps_ready();
    let mut number: usize = 0;
    for state in judged.defined() {
        add_edges_of(builder, judged, counter, state, number)?;
        number += state.edges.len();
    }
    Ok(())
}

/// Adds the nodes of the usable ones among the edges of `state`, which are numbered from `number`.
fn add_edges_of(
    builder: &mut GameBuilder,
    judged: &Judged<'_>,
    counter: u32,
    state: &State,
    number: usize,
) -> Result<(), Refusal>
    requires counter { counter < counters judged.now.kind }
    requires plain { IsPlainState judged.now.automaton judged.now.kind state.now }
    requires within { number + length state.now.edges ≤ edge_count judged.now.automaton }
    ensures ok { OnOk result
        (builder.new ≡ builder.old ++ edges_at judged.now counter number (edges_from state.now)) }
    ensures memory { IsOkUnless result Refusal.Memory }
{
    judged.keeps_ready();
    let mut next = number;
    for at in 0..state.edges.len() {
        let edge = state.edges.edge(at);
        add_if_usable(builder, judged, counter, state, &edge, next)?;
        next += 1;
    }
    Ok(())
}

/// Adds the node of `edge`, which leaves `state`, at `counter`, if the edge of this `number` is usable.
fn add_if_usable(
    builder: &mut GameBuilder,
    judged: &Judged<'_>,
    counter: u32,
    state: &State,
    edge: &EdgeRef<'_>,
    number: usize,
) -> Result<(), Refusal>
    requires counter { counter < counters judged.now.kind }
    requires own { AreMarksBelow judged.now.kind state.now.marks }
    requires plain { IsPlainEdge judged.now.automaton judged.now.kind edge.now }
    requires number { number < edge_count judged.now.automaton }
    ensures ok { OnOk result (builder.new
        ≡ builder.old ++ edges_at judged.now counter number (body_edge state.now edge.now ∷ [])) }
    ensures memory { IsOkUnless result Refusal.Memory }
{
    judged.keeps_ready();
    if judged.is_usable(number) {
        add_edge(builder, judged, counter, state, edge, number as u32)?;
    }
    Ok(())
}

/// Adds the node of `edge`, which has this `number` and leaves `state`, at `counter`.
fn add_edge(
    builder: &mut GameBuilder,
    judged: &Judged<'_>,
    counter: u32,
    state: &State,
    edge: &EdgeRef<'_>,
    number: u32,
) -> Result<(), Refusal>
    requires counter { counter < counters judged.now.kind }
    requires own { AreMarksBelow judged.now.kind state.now.marks }
    requires plain { IsPlainEdge judged.now.automaton judged.now.kind edge.now }
    requires number { number < edge_count judged.now.automaton }
    ensures ok { OnOk result (builder.new
        ≡ builder.old ++ edge_at judged.now counter number (body_edge state.now edge.now) ∷ []) }
    ensures memory { IsOkUnless result Refusal.Memory }
{
    let id = edge_id(judged, counter, number);
    let target = target_id(judged, counter, state, edge);
    let priority = judged.priority(counter, state, edge);
    builder.add_node(id, priority, Player::Zero, target)
}

/// Returns the identifier of the edge of this `number` at `counter`.
fn edge_id(judged: &Judged<'_>, counter: u32, number: u32) -> u32
    requires counter { counter < counters judged.now.kind }
    requires number { number < edge_count judged.now.automaton }
    ensures id { result ≡ edge_id judged.now.automaton counter number }
    ensures writable { result ≤ most_number }
{
    judged.keeps_ready();
    counter * judged.span() + judged.states() + number
}

/// Returns the identifier of the state that `edge` enters, at the counter that follows `counter` after its marks.
fn target_id(judged: &Judged<'_>, counter: u32, state: &State, edge: &EdgeRef<'_>) -> u32
    requires counter { counter < counters judged.now.kind }
    requires plain { IsPlainEdge judged.now.automaton judged.now.kind edge.now }
    ensures id { result ≡ state_id judged.now.automaton
        (counter_after judged.now.kind counter (state.now.marks ++ edge.now.marks))
        (slice_index edge.now.targets 0) }
    ensures writable { result ≤ most_number }
{
    judged.keeps_ready();
    let following = judged.counter_after(counter, state, edge);
    following * judged.span() + edge.targets()[0]
}
