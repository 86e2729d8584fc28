//! Which places are in play, and attractors: the places from which a player forces a visit to a set.
use omega_game_values::{Game, Player};
use omega_graph_search::{NONE, NumberTable, number_of};
use std::alloc::{AllocError, Global};

/// The places of a game by the depth of the subgame that took them out of play.
#[derive(Drop)]
pub(crate) struct Board {
    // By place: that depth, or none while it is in play; the index of the successor that was last seen in play; and the
    // place that its owner moves to.
    depth: NumberTable,
    watched: NumberTable,
    moves: NumberTable,
    // The places taken out for the top nodes of the open subgames, in the order taken.
    trail: Vec<u32>,
    fuel: u64,
}

impl Board {
    /// Makes a board on which all places are in play.
    pub(crate) fn new(alloc: Global, game: &Game, fuel: u64) -> Result<Board, AllocError> {
        let count = game.len();
        let depth = NumberTable::filled(alloc, count, NONE)?;
        let watched = NumberTable::filled(alloc, count, 0)?;
        let moves = NumberTable::filled(alloc, count, NONE)?;
        let trail = Vec::with_capacity(alloc, count)?;
        Ok(Board {
            depth,
            watched,
            moves,
            trail,
            fuel,
        })
    }

    /// Uses up fuel for `edges` edges.
    #[inline(always)]
    pub(crate) fn spend(&mut self, edges: usize) {
        self.fuel = self.fuel.saturating_sub(edges as u64);
    }

    /// Returns how much fuel is left.
    pub(crate) fn fuel(&self) -> u64 {
        self.fuel
    }

    /// Returns for each place the place that its owner moves to.
    pub(crate) fn into_moves(self) -> Vec<u32> {
        let Board { moves, .. } = self;
        moves.into_items()
    }

    /// Returns the length of the trail.
    pub(crate) fn trail_length(&self) -> u32 {
        number_of(self.trail.len())
    }

    /// Returns the place at `position` of the trail, or `NONE` past its end.
    #[inline(always)]
    pub(crate) fn on_trail(&self, position: u32) -> u32 {
        match self.trail.get(position as usize) {
            Some(place) => *place,
            None => NONE,
        }
    }

    /// Cuts the trail to `length`.
    pub(crate) fn cut(&mut self, length: u32) {
        self.trail.truncate(length as usize);
    }

    /// Whether `place` is in play in the subgame at `depth`.
    #[inline(always)]
    pub(crate) fn is_in(&self, place: u32, depth: u32) -> bool {
        self.depth.at(place) >= depth
    }

    /// Whether `place` is in play.
    #[inline(always)]
    pub(crate) fn is_in_play(&self, place: u32) -> bool {
        self.depth.at(place) == NONE
    }

    /// Sets the depth of `place`.
    #[inline(always)]
    pub(crate) fn put(&mut self, place: u32, depth: u32) {
        self.depth.put(place, depth);
    }

    /// Takes `place` out of play at `depth` and appends it to the trail.
    #[inline(always)]
    pub(crate) fn take(&mut self, place: u32, depth: u32) -> Result<(), AllocError> {
        self.depth.put(place, depth);
        self.trail.push(place)?;
        Ok(())
    }

    /// Takes out at `depth` the attractor of `player`, among the places deeper in play, to the places of the trail from
    /// the position `from` on.
    #[inline(never)]
    pub(crate) fn attract(
        &mut self,
        game: &Game,
        player: Player,
        depth: u32,
        from: u32,
    ) -> Result<(), AllocError> {
        for position in from..NONE {
            let place = self.on_trail(position);
            if place == NONE {
                break;
            }
            self.attract_to(game, player, depth, place)?;
        }
        Ok(())
    }

    /// Takes out at `depth` the predecessors of `place` from which `player` forces the step to places out of play.
    /// `place` itself is out already.
    // Inlined, since the loops over places take most of a search.
    #[inline(always)]
    pub(crate) fn attract_to(
        &mut self,
        game: &Game,
        player: Player,
        depth: u32,
        place: u32,
    ) -> Result<(), AllocError> {
        if place as usize >= game.len() {
            return Ok(());
        }
        let predecessors = game.predecessors(place);
        self.spend(predecessors.len());
        for before in predecessors {
            let before = *before;
            if self.depth.at(before) > depth && self.is_forced(game, player, depth, before, place) {
                self.take(before, depth)?;
            }
        }
        Ok(())
    }

    /// Whether `player` forces a step from `place` to a place out of play. `target` is such a successor of `place`, and
    /// `player` moves to it if `place` is theirs.
    fn is_forced(
        &mut self,
        game: &Game,
        player: Player,
        depth: u32,
        place: u32,
        target: u32,
    ) -> bool {
        if place as usize >= game.len() {
            return false;
        }
        if game.owner(place) == player {
            self.moves.put(place, target);
            return true;
        }
        let successors = game.successors(place);
        let watched = self.watched.at(place);
        !self.finds(
            successors,
            watched,
            number_of(successors.len()),
            depth,
            place,
        ) && !self.finds(successors, 0, watched, depth, place)
    }

    /// Whether a successor from index `start` to `end` is deeper in play. The first such index is watched from then on.
    fn finds(&mut self, successors: &[u32], start: u32, end: u32, depth: u32, place: u32) -> bool {
        for index in start..end {
            let successor = match successors.get(index as usize) {
                Some(successor) => *successor,
                None => return false,
            };
            if self.depth.at(successor) > depth {
                self.watched.put(place, index);
                return true;
            }
            self.spend(1);
        }
        false
    }

    /// Lets `player` move from `place` to the first successor that is in play at `depth`, if `place` is theirs.
    pub(crate) fn choose(&mut self, game: &Game, player: Player, depth: u32, place: u32) {
        if place as usize >= game.len() || game.owner(place) != player {
            return;
        }
        for successor in game.successors(place) {
            if self.is_in(*successor, depth) {
                self.moves.put(place, *successor);
                return;
            }
            self.spend(1);
        }
    }
}
