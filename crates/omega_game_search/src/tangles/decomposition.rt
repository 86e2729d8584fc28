//! The decomposition of a game into regions.
use crate::tangles::ranked_game::RankedGame;
use crate::tangles::region::{FREE, Region, RegionRange};
use crate::tangles::stored_tangles::StoredTangles;
use omega_graph_search::{NONE, NumberTable, number_of};
use std::alloc::{AllocError, Global};

/// A game cut into regions from the greatest level down, and the tangles that were learned from it.
#[derive(Drop)]
pub(crate) struct Decomposition<'g> {
    pub game: &'g RankedGame,
    // By node: the level of its region, or what stands for that; what its owner chose as the player of its region or as
    // the winner; and the index of the successor that was last seen where one was sought.
    pub regions: NumberTable,
    pub choices: Vec<u32>,
    watched: NumberTable,
    // By node: when it was last marked.
    pub stamps: NumberTable,
    pub last_stamp: u32,
    // The nodes of the regions, each behind those that it is attracted to, and the regions.
    pub order: Vec<u32>,
    pub begun: Vec<Region>,
    // What was dropped from the last region: its heads that do not stay, and what goes to them.
    pub leaving: Vec<u32>,
    pub tangles: StoredTangles,
    // The nodes that are won, in the order in which they were.
    pub won: Vec<u32>,
    fuel: u64,
}

impl<'g> Decomposition<'g> {
    /// Makes the decomposition in which all nodes of `game` are free.
    pub(crate) fn new(
        alloc: Global,
        game: &'g RankedGame,
        fuel: u64,
    ) -> Result<Decomposition<'g>, AllocError> {
        let count = game.len();
        Ok(Decomposition {
            game,
            regions: NumberTable::filled(alloc, count, FREE)?,
            choices: vec![in alloc; NONE; count]?,
            watched: NumberTable::filled(alloc, count, 0)?,
            stamps: NumberTable::filled(alloc, count, 0)?,
            last_stamp: 0,
            order: Vec::with_capacity(alloc, count)?,
            begun: Vec::new(alloc),
            leaving: Vec::new(alloc),
            tangles: StoredTangles::new(alloc, count)?,
            won: Vec::with_capacity(alloc, count)?,
            fuel,
        })
    }

    /// Uses up fuel for `edges` edges.
    #[inline(always)]
    pub(crate) fn spend(&mut self, edges: usize) {
        self.fuel = self.fuel.saturating_sub(edges as u64);
    }

    /// Returns how much fuel is left.
    pub(crate) fn fuel(&self) -> u64 {
        self.fuel
    }

    /// Returns a mark that no node bears, unless there were too many.
    // It may wrap: a node that counts as marked by mistake costs an answer at worst.
    pub(crate) fn new_stamp(&mut self) -> u32 {
        self.last_stamp = self.last_stamp.wrapping_add(1);
        self.last_stamp
    }

    /// Returns the node at `position` of the list of all regions, or `NONE` past its end.
    #[inline(always)]
    pub(crate) fn in_order(&self, position: u32) -> u32 {
        match self.order.get(position as usize) {
            Some(node) => *node,
            None => NONE,
        }
    }

    /// Returns what the owner of `node` chose.
    #[inline(always)]
    pub(crate) fn choice(&self, node: u32) -> u32 {
        match self.choices.get(node as usize) {
            Some(choice) => *choice,
            None => NONE,
        }
    }

    /// Lets the owner of `node` choose `target`.
    #[inline(always)]
    pub(crate) fn choose(&mut self, node: u32, target: u32) {
        if (node as usize) < self.choices.len() {
            self.choices[node as usize] = target;
        }
    }

    /// Puts `node` into the region at `level` and behind all others.
    #[inline(always)]
    pub(crate) fn take(&mut self, node: u32, level: u32) -> Result<(), AllocError> {
        self.regions.put(node, level);
        self.order.push(node)?;
        Ok(())
    }

    /// Whether `node` has a successor whose region is in `range`. The first such one is watched from then on.
    #[inline(always)]
    pub(crate) fn finds(&mut self, node: u32, range: RegionRange) -> bool {
        let game = self.game;
        let successors = game.successors(node);
        let watched = self.watched.at(node);
        let end = number_of(successors.len());
        self.finds_among(node, successors, watched, end, range)
            || self.finds_among(node, successors, 0, watched, range)
    }

    /// Whether a successor from index `start` to `end` is in a region in `range`.
    #[inline(always)]
    fn finds_among(
        &mut self,
        node: u32,
        successors: &[u32],
        start: u32,
        end: u32,
        range: RegionRange,
    ) -> bool {
        for index in start..end {
            self.spend(1);
            let successor = match successors.get(index as usize) {
                Some(successor) => *successor,
                None => return false,
            };
            if range.contains(self.regions.at(successor)) {
                self.watched.put(node, index);
                return true;
            }
        }
        false
    }

    /// Returns the successor of `node` that is watched.
    #[inline(always)]
    pub(crate) fn watched_successor(&self, node: u32) -> u32 {
        match self
            .game
            .successors(node)
            .get(self.watched.at(node) as usize)
        {
            Some(successor) => *successor,
            None => NONE,
        }
    }
}
