ghost use Rattle.std.specs.Prelude.{◌≡◌, ℕ, ◌*◌, ◌<◌, ◌≤◌, false, length};
ghost use Rattle.std.specs.Prelude.{slice_index, IsOk, IfOk, IfErr, IsOkUnless};
ghost use Rattle.omega_game_values.specs.Game.{priorities};
ghost use Rattle.omega_game_values.specs.Limits.{most_nodes};
ghost use Rattle.omega_game_values.specs.Player.{loses};
ghost use Rattle.omega_lift_laws.specs.Least.{limits_of};
ghost use Rattle.omega_lift_laws.specs.Measure.{entries_from};
ghost use Rattle.omega_measure.specs.Limits.{most_cells};
ghost use Rattle.omega_measure.specs.Table.{IsPrepareRefusal, is_too_wide};
ghost use Rattle.omega_measure.specs.private.layout.Shape.{width_of};

use crate::cells::is_too_wide;
use crate::kept::{count_from, kept_of};
use crate::losing::losing_of;
use omega_game_values::{Game, Player, Refusal, TaskFault};
use std::alloc::Global;
use std::marker::Model;

/// The shape of the measures of a player over a game: the losing priorities in use, one for each entry, the limit of
/// each entry, and the number of entries that count at each place.
#[derive(Drop)]
pub(crate) struct Shape {
    player: Player,
    priorities: Vec<u32>,
    losing: Vec<u32>,
    limits: Vec<u32>,
    kept: Vec<u32>,
}

impl Model for Shape {
    ghost use Rattle.omega_measure.specs.private.layout.Shape.{Setting, IsShape};

    ghost Value = { Setting };

    ghost view = { λ s. record { player = s.player; priorities = s.priorities.items } };

    ghost invariant = { λ s.
        IsShape s.player s.priorities.items s.losing.items s.limits.items s.kept.items };
}

impl Shape {
    /// Returns the shape of the measures of `player` over `game`. Fails with [TaskFault::TooWide] if they have more
    /// than `MOST_CELLS` entries in all.
    pub(crate) fn prepare(alloc: Global, game: &Game, player: Player) -> Result<Shape, Refusal>
        ensures shape { IfOk result
            (λ shape. shape ≡ record { player = player; priorities = priorities game.now }) }
        ensures fits { IsOk result → is_too_wide player (priorities game.now) ≡ false }
        ensures refused { IfErr result (IsPrepareRefusal player (priorities game.now)) }
    {
        let priorities = priorities_of(alloc, game)?;
        let (losing, limits) = losing_of(alloc, game, player)?;
        if is_too_wide(priorities.len(), losing.len()) {
            return Err(Refusal::Task(TaskFault::TooWide));
        }
        let kept = kept_of(alloc, &priorities, &losing)?;
        Ok(Shape {
            player,
            priorities,
            losing,
            limits,
            kept,
        })
    }

    /// Returns the number of places.
    pub(crate) fn len(&self) -> usize
        ensures count { result ≡ length self.now.priorities }
        ensures few { result ≤ most_nodes }
    {
        self.priorities.len()
    }

    /// Returns the number of entries of a measure below top.
    pub(crate) fn width(&self) -> usize
        ensures width { result ≡ width_of self.now.player self.now.priorities }
        ensures narrow { length self.now.priorities * result ≤ most_cells }
    {
        self.losing.len()
    }

    /// Returns the limit of each entry, that for the greatest priority first.
    pub(crate) fn limits(&self) -> &[u32]
        ensures limits { result.now ≡ limits_of self.now.player self.now.priorities }
        ensures few { length result.now ≤ most_cells }
    {
        self.limits.as_slice()
    }

    /// Returns the number of entries for priorities at least that of `place`.
    pub(crate) fn entries_kept(&self, place: u32) -> usize
        requires { place < length self.now.priorities }
        ensures { result ≡ entries_from self.now.player self.now.priorities
            (slice_index self.now.priorities place) }
    {
        self.kept[place as usize] as usize
    }

    /// Returns the number of entries for priorities at least `p`.
    pub(crate) fn kept_from(&self, p: u32) -> usize
        ensures { result ≡ entries_from self.now.player self.now.priorities p }
    {
        count_from(&self.losing, p)
    }

    /// Whether the priority of `place` loses.
    pub(crate) fn is_strict(&self, place: u32) -> bool
        requires { place < length self.now.priorities }
        ensures { result ≡ loses self.now.player (slice_index self.now.priorities place) }
    {
        self.player.loses(self.priorities[place as usize])
    }
}

/// Lists the nodes' priorities by place.
fn priorities_of(alloc: Global, game: &Game) -> Result<Vec<u32>, Refusal>
    ensures priorities { IfOk result (λ found. found.items ≡ priorities game.now) }
    ensures some { IfOk result (λ found. 0 < length found.items) }
    ensures few { IfOk result (λ found. length found.items ≤ most_nodes) }
    ensures memory { IsOkUnless result Refusal.Memory }
{
    let count = game.len() as u32;
    let mut found = Vec::with_capacity(alloc, count as usize)?;
    for place in 0..count {
        found.push(game.priority(place))?;
    }
    Ok(found)
}
