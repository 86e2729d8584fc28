//! The states of a product.

ghost use Rattle.std.specs.Prelude.{◌≡◌, ◌<◌, ◌≤◌, get_or, length, sum_by, IfErr, IfOk};
ghost use Rattle.omega_hoa_edges.specs.Fitting.{IsLarge};
ghost use Rattle.omega_hoa_edges.specs.Limits.{most_edges};
ghost use Rattle.omega_lang_product.specs.Refusing.{HasDeepMeeting};
ghost use Rattle.omega_lang_product.specs.private.Explored.{AreMade, IsExplored};
ghost use Rattle.omega_lang_product.specs.private.Operands.{AreTabled, state_in, states_in};

use crate::explored::Explored;
use crate::labelling::edges_leaving;
use crate::naming::name_of;
use crate::operands::Operands;
use crate::pairs::{number_of, pair_at};
use omega_hoa_syntax::RawState;
use omega_text::{Marks, Refusal};
use std::alloc::Global;

/// Returns the states of the pairs. Fails with [TaskFault::TooLarge] if a joint label is too deep.
pub(crate) fn states_of(
    alloc: Global,
    operands: &Operands<'_>,
    explored: &Explored,
) -> Result<Vec<RawState>, Refusal>
    requires tabled { AreTabled operands.now }
    requires explored { IsExplored operands.now.one.now operands.now.other.now explored.now }
    requires made { AreMade operands.now.tables.now explored.now }
    ensures states { IfOk result
        (λ states. states.items ≡ states_in operands.now explored.now.pairs.keys) }
    ensures edges { IfOk result
        (λ states. sum_by (λ state. length state.edges) states.items ≤ most_edges) }
    ensures err { IfErr result (IsLarge (HasDeepMeeting operands.now.one.now operands.now.other.now)) }
{
    let mut states = Vec::with_capacity(alloc, explored.pairs.len())?;
    for at in 0..explored.pairs.len() {
        let state = state_of(alloc, operands, explored, at)?;
        states.push(state)?;
    }
    Ok(states)
}

/// Returns the state of the pair with the number `at`.
fn state_of(
    alloc: Global,
    operands: &Operands<'_>,
    explored: &Explored,
    at: usize,
) -> Result<RawState, Refusal>
    requires tabled { AreTabled operands.now }
    requires explored { IsExplored operands.now.one.now operands.now.other.now explored.now }
    requires made { AreMade operands.now.tables.now explored.now }
    requires below { at < length explored.now.pairs.keys }
    ensures ok { IfOk result (λ state. state ≡ state_in operands.now explored.now.pairs.keys
        (get_or explored.now.pairs.keys at (0, 0))) }
    ensures err { IfErr result (IsLarge (HasDeepMeeting operands.now.one.now operands.now.other.now)) }
{
    let pair = pair_at(&explored.pairs, at);
    let edges = edges_leaving(alloc, operands, explored, at)?;
    let name = name_of(alloc, operands, pair)?;
    Ok(RawState {
        label: None,
        number: number_of(&explored.pairs, pair),
        name,
        marks: Marks::absent(),
        edges,
    })
}
