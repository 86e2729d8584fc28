//! The bounds on lifts of a game as arrays.
ghost use Rattle.std.specs.Prelude.{◌≡◌, ◌+◌, ◌*◌, ◌^◌, IfOk, IfErr, IsOk, None};
ghost use Rattle.omega_game_values.specs.declared.player.Player.TheVariants.{One, Zero};
ghost use Rattle.omega_game_values.specs.Game.{priorities};
ghost use Rattle.omega_text.specs.Cases.{never, or_game, or_memory};
ghost use Rattle.omega_arrays.specs.Arrays.{nodes_in};
ghost use Rattle.omega_arrays.specs.Bounds.{IsBound};
ghost use Rattle.omega_arrays.specs.Shape.{IsSizeFault, IsSized, wrong_entry};
ghost use Rattle.omega_arrays.specs.Solving.{or_shape};

use crate::arrays::Arrays;
use crate::building::game_of_arrays;
use crate::fault::ArrayFault;
use omega_game::{ForwardGame, Player};
use omega_lift_bound::bound;
use std::alloc::Global;

/// A bound on lifts, in two halves.
#[repr(C)]
#[derive(Clone, Copy, Debug, PartialEq, Eq)]
pub struct Bound {
    /// The lower 64 bits.
    pub low: u64,
    /// The upper 64 bits.
    pub high: u64,
    /// 0 if the bound is over 128 bits, and both halves are 0 then; else 1.
    pub fits: u64,
}

/// The bound for each player.
#[repr(C)]
#[derive(Clone, Copy, Debug, PartialEq, Eq)]
pub struct Bounds {
    /// That on the lifts of player 0's run.
    pub zero: Bound,
    /// That on the lifts of player 1's run.
    pub one: Bound,
}

/// Returns the bound on the lifts of a run for each player on the game of `arrays`.
///
/// Refused with [ArrayFault::BadShape], [GameFault::TooManyNodes], [GameFault::TooManyEdges] or [Refusal::Memory].
pub fn bound_arrays(alloc: Global, arrays: &Arrays<'_>) -> Result<Bounds, ArrayFault>
    ensures zero { IfOk result
        (λ bounds. IsBound Zero (priorities (nodes_in arrays.now)) bounds.zero) }
    ensures one { IfOk result (λ bounds. IsBound One (priorities (nodes_in arrays.now)) bounds.one) }
    ensures faultless { IsOk result → wrong_entry arrays.now ≡ None }
    ensures sized { IsOk result → IsSized arrays.now }
    ensures refused { IfErr result
        (or_shape (wrong_entry arrays.now) (or_game (IsSizeFault arrays.now) (or_memory never))) }
{
    if let Some(wrong) = arrays.wrong_entry() {
        return Err(ArrayFault::BadShape(wrong));
    }
    let game = game_of_arrays(alloc, arrays)?;
    Ok(Bounds {
        zero: bound_for(&game, Player::Zero),
        one: bound_for(&game, Player::One),
    })
}

/// Returns the bound for `player`, in two halves.
fn bound_for(game: &ForwardGame, player: Player) -> Bound
    ensures { IsBound player (priorities game.now) result }
{
    match bound(game, player) {
        Some(most) => bound_in_halves(most),
        None => Bound {
            low: 0,
            high: 0,
            fits: 0,
        },
    }
}

/// Returns a number in two halves.
fn bound_in_halves(number: u128) -> Bound
    ensures parts { number ≡ result.high * 2 ^ 64 + result.low }
    ensures fits { result.fits ≡ 1 }
{
    Bound {
        low: (number % HALF) as u64,
        high: (number / HALF) as u64,
        fits: 1,
    }
}

const HALF: u128 = 18_446_744_073_709_551_616;
