//! The tangles that were learned, and their escapes by node.
use crate::tangles::region::FREE;
use crate::tangles::tangle::{Escape, Tangle, TangleNode};
use omega_game_values::Player;
use omega_graph_search::{NONE, NumberTable, number_of};
use std::alloc::{AllocError, Global};

/// The tangles that were learned.
#[derive(Drop)]
pub(crate) struct StoredTangles {
    pub tangles: Vec<Tangle>,
    pub nodes: Vec<TangleNode>,
    pub escapes: Vec<Escape>,
    // By node the first of the escapes to it.
    pub first_escapes: NumberTable,
    // The tangles before this index have the counts of their free escapes.
    pub known: u32,
}

impl StoredTangles {
    /// Makes an empty store for games of `nodes` nodes.
    pub(crate) fn new(alloc: Global, nodes: usize) -> Result<StoredTangles, AllocError> {
        Ok(StoredTangles {
            tangles: Vec::new(alloc),
            nodes: Vec::new(alloc),
            escapes: Vec::new(alloc),
            first_escapes: NumberTable::filled(alloc, nodes, NONE)?,
            known: 0,
        })
    }

    /// Returns the size of the lists in words.
    pub(crate) fn words(&self) -> u64 {
        let nodes = (self.nodes.len() as u64).saturating_mul(2);
        let escapes = (self.escapes.len() as u64).saturating_mul(3);
        let tangles = (self.tangles.len() as u64).saturating_mul(6);
        nodes.saturating_add(escapes).saturating_add(tangles)
    }

    /// Returns the number of tangles.
    pub(crate) fn len(&self) -> u32 {
        number_of(self.tangles.len())
    }

    /// Returns the number of nodes in the list of all.
    pub(crate) fn node_count(&self) -> u32 {
        number_of(self.nodes.len())
    }

    /// Returns the number of escapes in the list of all.
    pub(crate) fn escape_count(&self) -> u32 {
        number_of(self.escapes.len())
    }

    /// Returns the tangle at `index`, or none past the end.
    pub(crate) fn tangle(&self, index: u32) -> Option<Tangle> {
        self.tangles.get(index as usize).copied()
    }

    /// Returns the nodes of `tangle`, in the order in which they are attracted.
    pub(crate) fn nodes_of(&self, tangle: Tangle) -> &[TangleNode] {
        match self
            .nodes
            .get(tangle.first_node as usize..tangle.end_node as usize)
        {
            Some(nodes) => nodes,
            None => &[],
        }
    }

    /// Returns the node at `index` of the list of all, or none past the end.
    pub(crate) fn node(&self, index: u32) -> Option<TangleNode> {
        self.nodes.get(index as usize).copied()
    }

    /// Returns the index of the first escape to `node`, or `NONE`.
    #[inline(always)]
    pub(crate) fn first_escape_to(&self, node: u32) -> u32 {
        self.first_escapes.at(node)
    }

    /// Returns the index of the next escape to the same node, or `NONE`.
    pub(crate) fn next_escape(&self, escape: u32) -> u32 {
        match self.escapes.get(escape as usize) {
            Some(escape) => escape.next,
            None => NONE,
        }
    }

    /// Takes `escape` from the free ones of its tangle. Returns the tangle if it was the last of them.
    pub(crate) fn close_escape(&mut self, escape: u32) -> Option<Tangle> {
        let index = self.escapes.get(escape as usize)?.tangle;
        let tangle = self.tangle(index)?;
        if index >= self.known {
            return None;
        }
        let free_escapes = tangle.free_escapes.wrapping_sub(1);
        self.put_tangle(
            index as usize,
            Tangle {
                free_escapes,
                ..tangle
            },
        );
        if free_escapes == 0 {
            Some(tangle)
        } else {
            None
        }
    }

    /// Counts `escape` among the free ones of its tangle.
    pub(crate) fn open_escape(&mut self, escape: u32) {
        let index = match self.escapes.get(escape as usize) {
            Some(escape) => escape.tangle,
            None => return,
        };
        if index >= self.known {
            return;
        }
        if let Some(tangle) = self.tangle(index) {
            let free_escapes = tangle.free_escapes.wrapping_add(1);
            self.put_tangle(
                index as usize,
                Tangle {
                    free_escapes,
                    ..tangle
                },
            );
        }
    }

    /// Counts the free escapes of the tangles that were learned since the last count. Returns how many escapes they
    /// have.
    pub(crate) fn count_free_escapes(&mut self, regions: &NumberTable) -> usize {
        let mut looked_at: usize = 0;
        for index in self.known..self.len() {
            if let Some(tangle) = self.tangle(index) {
                let free_escapes = self.free_escapes_of(tangle, regions);
                self.put_tangle(
                    index as usize,
                    Tangle {
                        free_escapes,
                        ..tangle
                    },
                );
                looked_at = looked_at.wrapping_add(tangle.escapes() as usize);
            }
        }
        self.known = self.len();
        looked_at
    }

    /// Returns how many escapes of `tangle` are free.
    fn free_escapes_of(&self, tangle: Tangle, regions: &NumberTable) -> u32 {
        let mut count: u32 = 0;
        for escape in self.escapes_of(tangle) {
            if regions.at(escape.node) == FREE {
                count = count.wrapping_add(1);
            }
        }
        count
    }

    /// Returns the level to which `tangle` is attracted, the least of its escapes, or none if it has no escapes.
    pub(crate) fn level_of(&self, tangle: Tangle, regions: &NumberTable) -> Option<u32> {
        let mut least = None;
        for escape in self.escapes_of(tangle) {
            let level = regions.at(escape.node);
            least = match least {
                Some(least) if least < level => Some(least),
                _ => Some(level),
            };
        }
        least
    }

    /// Returns the escapes of `tangle`.
    fn escapes_of(&self, tangle: Tangle) -> &[Escape] {
        match self
            .escapes
            .get(tangle.first_escape as usize..tangle.end_escape as usize)
        {
            Some(escapes) => escapes,
            None => &[],
        }
    }

    /// Appends a node to the list of all.
    pub(crate) fn add_node(&mut self, node: TangleNode) -> Result<(), AllocError> {
        self.nodes.push(node)?;
        Ok(())
    }

    /// Replaces the node at `index` of the list of all.
    pub(crate) fn put_node(&mut self, index: u32, node: TangleNode) {
        if (index as usize) < self.nodes.len() {
            self.nodes[index as usize] = node;
        }
    }

    /// Appends an escape to `node` to the list of all. It becomes one of the next tangle.
    pub(crate) fn add_escape(&mut self, node: u32) -> Result<(), AllocError> {
        self.escapes.push(Escape::to(node))?;
        Ok(())
    }

    /// Drops the last escapes, from `first` on, that no tangle has.
    pub(crate) fn cut_escapes(&mut self, first: u32) {
        self.escapes.truncate(first as usize);
    }

    /// Makes a tangle of `player` of the nodes and escapes from these indices on, and returns it.
    pub(crate) fn add_tangle(
        &mut self,
        player: Player,
        first_node: u32,
        first_escape: u32,
    ) -> Result<Tangle, AllocError> {
        let index = self.len();
        let tangle = Tangle {
            player,
            free_escapes: 0,
            first_node,
            end_node: self.node_count(),
            first_escape,
            end_escape: self.escape_count(),
        };
        self.tangles.push(tangle)?;
        for escape in first_escape..tangle.end_escape {
            self.link(escape, index);
        }
        Ok(tangle)
    }

    /// Gives the escape at `index` to the tangle at `tangle`, and puts it before the other escapes to its node.
    pub(crate) fn link(&mut self, index: u32, tangle: u32) {
        if let Some(escape) = self.escapes.get(index as usize).copied() {
            let next = self.first_escapes.at(escape.node);
            self.put_escape(
                index as usize,
                Escape {
                    tangle,
                    next,
                    ..escape
                },
            );
            self.first_escapes.put(escape.node, index);
        }
    }

    /// Replaces the tangle at `index`.
    pub(crate) fn put_tangle(&mut self, index: usize, tangle: Tangle) {
        if index < self.tangles.len() {
            self.tangles[index] = tangle;
        }
    }

    /// Replaces the escape at `index`.
    pub(crate) fn put_escape(&mut self, index: usize, escape: Escape) {
        if index < self.escapes.len() {
            self.escapes[index] = escape;
        }
    }
}
