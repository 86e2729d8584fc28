ghost use Rattle.std.specs.Prelude.{IfOk, IsOkUnless};
ghost use Rattle.omega_game_values.specs.declared.player.Player.TheVariants.{Zero};
ghost use Rattle.omega_solve.specs.Headline.{IsExact};
ghost use Rattle.omega_empty.specs.EmptinessGame.{IsEmptinessGame};
ghost use Rattle.omega_empty.specs.private.layout.Following.{IsLooped, IsWonStart};

use crate::game_laws::won_walks_accept;
use omega_game_values::ForwardGame;
use omega_hoa_automaton::{Automaton, Refusal};
use omega_solve::budget::Found;
use std::alloc::Global;

/// A walk along edges whose last edge closes its cycle.
#[derive(Drop)]
pub(crate) struct LoopedWalk {
    /// The numbers of the edges, in order.
    pub(crate) edges: Vec<u32>,
    /// The number of edges before the cycle.
    pub(crate) loop_start: usize,
}

/// Follows the choices of player 0 from `start`, the place of a start's node, until a state's node comes again, and
/// returns the edges passed. A step passes two nodes: an edge's, and that of the state that it enters.
pub(crate) fn follow_choices(
    alloc: Global,
    automaton: &Automaton,
    game: &ForwardGame,
    found: &Found,
    start: u32,
) -> Result<LoopedWalk, Refusal>
    requires game { IsEmptinessGame automaton.now game.now }
    requires exact { IsExact game.now Zero found.now.won.items found.now.choice.items }
    requires start { IsWonStart automaton.now game.now found.now.won.items start }
    ensures looped { IfOk result (λ found. IsLooped automaton.now found.edges.items found.loop_start) }
    ensures memory { IsOkUnless result Refusal.Memory }
{
    won_walks_accept();
    automaton.keeps_limits();
    let states = u64::from(automaton.state_count());
    let span = states + u64::from(automaton.edge_count());
    let mut met = vec![in alloc; None; game.len()]?;
    let mut edges = Vec::new(alloc);
    let mut at = start as usize;
    while met[at].is_none() {
        met[at] = Some(edges.len());
        let passed = found.choice[at].unwrap();
        let number = u64::from(game.id(passed)) % span - states;
        edges.push(number as u32)?;
        at = found.choice[passed as usize].unwrap() as usize;
    }
    let loop_start = met[at].unwrap();
    Ok(LoopedWalk { edges, loop_start })
}
