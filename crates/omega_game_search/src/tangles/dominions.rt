//! Taking won nodes out of play: dominions, and their attractors among all nodes in play.
use crate::tangles::decomposition::Decomposition;
use crate::tangles::ranked_game::player_of;
use crate::tangles::region::{RegionRange, WON_BY_ONE, WON_BY_ZERO, is_in_play};
use omega_game_values::Player;
use omega_graph_search::{NONE, number_of};
use std::alloc::AllocError;

impl<'g> Decomposition<'g> {
    /// Takes out the nodes whose owner wins in a loop there, and what each player attracts to these.
    pub(crate) fn win_loops(&mut self) -> Result<(), AllocError> {
        self.win_loops_of(Player::Zero)?;
        self.win_loops_of(Player::One)
    }

    /// Takes out the nodes whose owner is `player` and wins in a loop there, and what the player attracts to these.
    fn win_loops_of(&mut self, player: Player) -> Result<(), AllocError> {
        let game = self.game;
        let from = number_of(self.won.len());
        for node in 0..number_of(game.len()) {
            let level = game.level(node);
            if game.owner(node) == player
                && player_of(level) == player
                && game.successors(node).iter().any(|next| *next == node)
                && is_in_play(self.regions.at(node))
            {
                self.win(player, node, node)?;
            }
        }
        let _ = self.win_attractor(player, from)?;
        Ok(())
    }

    /// Takes out `node`, at which `player` wins by `choice`. Returns the level of its region.
    #[inline(always)]
    fn win(&mut self, player: Player, node: u32, choice: u32) -> Result<u32, AllocError> {
        let level = self.regions.at(node);
        let won = match player {
            Player::Zero => WON_BY_ZERO,
            Player::One => WON_BY_ONE,
        };
        self.regions.put(node, won);
        self.choose(node, choice);
        self.won.push(node)?;
        Ok(level)
    }

    /// Takes out the tangles without escapes, with their attractors, until no tangle is left without escapes. Returns
    /// the greatest level whose region may come out differently after this.
    pub(crate) fn win_dominions(&mut self) -> Result<u32, AllocError> {
        let from = number_of(self.won.len());
        let mut top = 0;
        for _ in 0..NONE {
            for index in 0..self.tangles.len() {
                top = self.win_if_dominion(index)?.max(top);
            }
            let looked_at = self
                .tangles
                .nodes
                .len()
                .saturating_add(self.tangles.escapes.len());
            self.spend(looked_at);
            let purged = self.tangles.purge(&self.regions);
            top = purged.top.max(top);
            if !purged.has_dominion || self.fuel() == 0 {
                break;
            }
        }
        Ok(self.greatest_changed_level(from).max(top))
    }

    /// Takes out the tangle at `index`, with its attractor, if it has no escapes. Returns the greatest level of their
    /// regions.
    fn win_if_dominion(&mut self, index: u32) -> Result<u32, AllocError> {
        let tangle = match self.tangles.tangle(index) {
            Some(tangle) => tangle,
            None => return Ok(0),
        };
        if !tangle.is_dominion() {
            return Ok(0);
        }
        let from = number_of(self.won.len());
        let mut top = 0;
        for index in tangle.first_node..tangle.end_node {
            if let Some(node) = self.tangles.node(index)
                && is_in_play(self.regions.at(node.node))
            {
                top = self.win(tangle.player, node.node, node.choice)?.max(top);
            }
        }
        Ok(self.win_attractor(tangle.player, from)?.max(top))
    }

    /// Takes out the attractor of `player` to the won nodes from the position `from` on. Returns the greatest level of
    /// its regions.
    fn win_attractor(&mut self, player: Player, from: u32) -> Result<u32, AllocError> {
        let game = self.game;
        let mut top = 0;
        for position in from..NONE {
            let node = match self.won.get(position as usize) {
                Some(node) => *node,
                None => break,
            };
            let predecessors = game.predecessors(node);
            self.spend(predecessors.len());
            for before in predecessors {
                let before = *before;
                if is_in_play(self.regions.at(before))
                    && (game.owner(before) == player || !self.finds(before, RegionRange::IN_PLAY))
                {
                    top = self.win(player, before, node)?.max(top);
                }
            }
        }
        Ok(top)
    }

    /// Returns the greatest level, and at least 0, at which a node in play may now be that has lost a successor among
    /// the won nodes from the position `from` on: that of its region or of the least region that it still leads to.
    fn greatest_changed_level(&mut self, from: u32) -> u32 {
        let game = self.game;
        let stamp = self.new_stamp();
        let mut top = 0;
        for position in from..number_of(self.won.len()) {
            let node = match self.won.get(position as usize) {
                Some(node) => *node,
                None => break,
            };
            for before in game.predecessors(node) {
                let before = *before;
                let level = self.regions.at(before);
                if is_in_play(level) && self.stamps.at(before) != stamp {
                    self.stamps.put(before, stamp);
                    top = self.least_successor_level(before).max(level).max(top);
                }
            }
        }
        top
    }

    /// Returns the least level of a successor of `node` in play, or 0 if there is none.
    fn least_successor_level(&mut self, node: u32) -> u32 {
        let game = self.game;
        let successors = game.successors(node);
        self.spend(successors.len());
        let mut least = NONE;
        for next in successors {
            let level = self.regions.at(*next);
            if is_in_play(level) {
                least = least.min(level);
            }
        }
        if least == NONE { 0 } else { least }
    }
}
