//! How regions begin, and how they are given up.
use crate::tangles::decomposition::Decomposition;
use crate::tangles::region::{FREE, Region, is_in_play};
use omega_graph_search::{NONE, number_of};
use std::alloc::AllocError;

impl<'g> Decomposition<'g> {
    /// Begins the region of the greatest level among the free nodes of `nodes` before the index `before`, of which the
    /// last is free. Takes in its heads.
    pub(crate) fn begin_region(
        &mut self,
        nodes: &[u32],
        before: u32,
    ) -> Result<Region, AllocError> {
        let start = number_of(self.order.len());
        let mut level = NONE;
        for index in (0..before).rev() {
            let node = match nodes.get(index as usize) {
                Some(node) => *node,
                None => break,
            };
            if level == NONE {
                level = self.game.level(node);
            } else if self.game.level(node) != level {
                break;
            }
            if self.regions.at(node) == FREE {
                self.take(node, level)?;
            }
        }
        let region = Region {
            level,
            start,
            heads: number_of(self.order.len()).saturating_sub(start),
            before,
        };
        self.begun.push(region)?;
        Ok(region)
    }

    /// Frees the nodes of the regions at `level` and below. Returns before which index of the nodes in play to look for
    /// heads of the next region, or `most` if no region was given up.
    pub(crate) fn give_up_regions(&mut self, level: u32, most: u32) -> u32 {
        let mut before = most;
        let mut cut = number_of(self.order.len());
        for index in (0..self.begun.len()).rev() {
            match self.begun.get(index).copied() {
                Some(region) if region.level <= level => {
                    before = region.before;
                    cut = region.start;
                    self.begun.truncate(index);
                }
                _ => break,
            }
        }
        for position in cut..number_of(self.order.len()) {
            let node = self.in_order(position);
            if is_in_play(self.regions.at(node)) {
                self.free(node);
            }
        }
        let freed = self.order.len().saturating_sub(cut as usize);
        self.spend(freed);
        self.order.truncate(cut as usize);
        before.min(most)
    }

    /// Frees `node`.
    fn free(&mut self, node: u32) {
        self.regions.put(node, FREE);
        let mut escape = self.tangles.first_escape_to(node);
        for _ in 0..NONE {
            if escape == NONE {
                break;
            }
            self.spend(1);
            self.tangles.open_escape(escape);
            escape = self.tangles.next_escape(escape);
        }
    }
}
