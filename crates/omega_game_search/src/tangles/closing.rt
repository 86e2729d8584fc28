//! The closed part of a region: where its player's choices keep each play, unless the opponent goes to a region above.
use crate::tangles::decomposition::Decomposition;
use crate::tangles::region::{LEAVING, Region, RegionRange, is_in_play};
use omega_graph_search::{NONE, number_of};
use std::alloc::AllocError;

impl<'g> Decomposition<'g> {
    /// Marks what is not in the closed part of `region` as leaving, and lets the heads that are in it choose. Returns
    /// whether any node is in it. The marks stand until `take_back`.
    #[inline(never)]
    pub(crate) fn finds_closed_part(&mut self, region: Region) -> Result<bool, AllocError> {
        self.leaving.clear();
        let end = region.start.saturating_add(region.heads);
        for position in region.start..end {
            let head = self.in_order(position);
            if self.leaves(region, head) {
                self.mark_leaving(head)?;
            }
        }
        if self.leaving.len() < region.heads as usize {
            self.mark_followers(region)?;
            let size = self.order.len().saturating_sub(region.start as usize);
            return Ok(self.leaving.len() < size);
        }
        Ok(false)
    }

    /// Whether the player of `region` must leave it at `head`, or the opponent can leave it downward. A player who can
    /// stay chooses to.
    #[inline(always)]
    fn leaves(&mut self, region: Region, head: u32) -> bool {
        if self.game.owner(head) != region.player() {
            return self.finds(head, RegionRange::FREE);
        }
        !self.stays(region, head)
    }

    /// Lets the owner of `head` choose a successor that stays, and returns whether there is one.
    #[inline(always)]
    fn stays(&mut self, region: Region, head: u32) -> bool {
        if self.finds(head, RegionRange::at(region.level)) {
            let target = self.watched_successor(head);
            self.choose(head, target);
            return true;
        }
        false
    }

    /// Marks `node` as leaving.
    fn mark_leaving(&mut self, node: u32) -> Result<(), AllocError> {
        self.regions.put(node, LEAVING);
        self.leaving.push(node)?;
        Ok(())
    }

    /// Marks as leaving what must or may go to a node that leaves.
    fn mark_followers(&mut self, region: Region) -> Result<(), AllocError> {
        let game = self.game;
        for position in 0..NONE {
            let node = match self.leaving.get(position as usize) {
                Some(node) => *node,
                None => break,
            };
            let predecessors = game.predecessors(node);
            self.spend(predecessors.len());
            for before in predecessors {
                let before = *before;
                if self.regions.at(before) == region.level && self.follows(region, before, node) {
                    self.mark_leaving(before)?;
                }
            }
        }
        Ok(())
    }

    /// Whether a node of `region` must or may go to `target`, which leaves. A head chooses another successor if it can.
    #[inline(always)]
    fn follows(&mut self, region: Region, node: u32, target: u32) -> bool {
        if self.game.owner(node) != region.player() {
            return true;
        }
        if self.choice(node) != target {
            return false;
        }
        self.game.level(node) != region.level || !self.stays(region, node)
    }

    /// Puts what was marked as leaving back into `region`.
    pub(crate) fn take_back(&mut self, region: Region) {
        for node in &self.leaving {
            self.regions.put(*node, region.level);
        }
    }

    /// Whether the opponent cannot leave the closed part of `region`.
    #[inline(never)]
    pub(crate) fn is_shut(&mut self, region: Region) -> bool {
        for position in region.start..number_of(self.order.len()) {
            let node = self.in_order(position);
            if self.regions.at(node) == region.level
                && self.game.owner(node) != region.player()
                && !self.is_kept_in(region, node)
            {
                return false;
            }
        }
        true
    }

    /// Whether each successor of `node` is in `region` or won.
    fn is_kept_in(&mut self, region: Region, node: u32) -> bool {
        let game = self.game;
        let successors = game.successors(node);
        self.spend(successors.len());
        successors.iter().all(|next| {
            let at = self.regions.at(*next);
            at == region.level || !is_in_play(at)
        })
    }
}
