//! The attractor to a region: the free nodes and tangles from which its player forces a visit to it.
use crate::tangles::decomposition::Decomposition;
use crate::tangles::region::{FREE, Region, RegionRange};
use crate::tangles::tangle::Tangle;
use omega_game_values::Player;
use omega_graph_search::NONE;
use std::alloc::AllocError;

impl<'g> Decomposition<'g> {
    /// Takes the attractor to `region` into it.
    #[inline(never)]
    pub(crate) fn attract(&mut self, region: Region) -> Result<(), AllocError> {
        for position in region.start..NONE {
            let node = self.in_order(position);
            if node == NONE {
                break;
            }
            self.attract_nodes(region, node)?;
            if self.tangles.first_escape_to(node) != NONE {
                self.attract_tangles(region, node)?;
            }
        }
        Ok(())
    }

    /// Takes in the predecessors of `node` from which the player of `region` forces the step into it.
    #[inline(always)]
    fn attract_nodes(&mut self, region: Region, node: u32) -> Result<(), AllocError> {
        let game = self.game;
        let predecessors = game.predecessors(node);
        self.spend(predecessors.len());
        for before in predecessors {
            let before = *before;
            if self.regions.at(before) == FREE && self.is_forced(region.player(), before, node) {
                self.take(before, region.level)?;
            }
        }
        Ok(())
    }

    /// Whether `player` forces a step from `node` to what is not free. `target` is such a successor of `node`, and
    /// `player` chooses it if `node` is theirs.
    #[inline(always)]
    fn is_forced(&mut self, player: Player, node: u32, target: u32) -> bool {
        if self.game.owner(node) == player {
            self.choose(node, target);
            return true;
        }
        !self.finds(node, RegionRange::FREE)
    }

    /// Takes in the tangles of the player of `region` that have no escape left now that `node` is in it.
    fn attract_tangles(&mut self, region: Region, node: u32) -> Result<(), AllocError> {
        let mut escape = self.tangles.first_escape_to(node);
        for _ in 0..NONE {
            if escape == NONE {
                break;
            }
            self.spend(1);
            if let Some(tangle) = self.tangles.close_escape(escape)
                && tangle.player == region.player()
            {
                self.attract_tangle(region, tangle)?;
            }
            escape = self.tangles.next_escape(escape);
        }
        Ok(())
    }

    /// Takes in what is free of `tangle`, unless a node of it is in another region.
    fn attract_tangle(&mut self, region: Region, tangle: Tangle) -> Result<(), AllocError> {
        if !self.is_within_reach(region, tangle) {
            return Ok(());
        }
        for index in tangle.first_node..tangle.end_node {
            if let Some(node) = self.tangles.node(index)
                && self.regions.at(node.node) == FREE
            {
                self.choose(node.node, node.choice);
                self.take(node.node, region.level)?;
            }
        }
        Ok(())
    }

    /// Whether each node of `tangle` is free or in `region`.
    fn is_within_reach(&mut self, region: Region, tangle: Tangle) -> bool {
        for index in tangle.first_node..tangle.end_node {
            self.spend(1);
            if let Some(node) = self.tangles.node(index) {
                let at = self.regions.at(node.node);
                if at != FREE && at != region.level {
                    return false;
                }
            }
        }
        true
    }
}
