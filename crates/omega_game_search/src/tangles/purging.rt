//! Purging the tangles that were learned of what is won.
use crate::tangles::region::is_in_play;
use crate::tangles::stored_tangles::StoredTangles;
use crate::tangles::tangle::{Escape, Tangle};
use omega_graph_search::{NONE, NumberTable, number_of};

/// What remains of the lists as far as they are purged, and what changed.
#[derive(Clone, Copy)]
pub(crate) struct Purged {
    tangles: usize,
    nodes: usize,
    escapes: usize,
    /// The greatest level to which a changed tangle is attracted.
    pub top: u32,
    /// Whether a tangle has no escapes any more.
    pub has_dominion: bool,
}

impl Purged {
    /// Nothing.
    const NOTHING: Purged = Purged {
        tangles: 0,
        nodes: 0,
        escapes: 0,
        top: 0,
        has_dominion: false,
    };
}

impl StoredTangles {
    /// Drops the tangles with a node that is won, and from the others the escapes that are won.
    pub(crate) fn purge(&mut self, regions: &NumberTable) -> Purged {
        for escape in &self.escapes {
            self.first_escapes.put(escape.node, NONE);
        }
        let mut purged = Purged::NOTHING;
        for index in 0..self.len() {
            if let Some(tangle) = self.tangle(index)
                && self.is_whole(tangle, regions)
            {
                purged = self.keep(tangle, purged, regions);
            }
        }
        self.tangles.truncate(purged.tangles);
        self.nodes.truncate(purged.nodes);
        self.escapes.truncate(purged.escapes);
        self.known = 0;
        purged
    }

    /// Whether no node of `tangle` is won.
    fn is_whole(&self, tangle: Tangle, regions: &NumberTable) -> bool {
        self.nodes_of(tangle)
            .iter()
            .all(|node| is_in_play(regions.at(node.node)))
    }

    /// Moves `tangle` to where those that are kept end, without its escapes that are won.
    fn keep(&mut self, tangle: Tangle, purged: Purged, regions: &NumberTable) -> Purged {
        let nodes = self.keep_nodes(tangle, purged.nodes);
        let escapes = self.keep_escapes(tangle, purged, regions);
        let moved = Tangle {
            first_node: number_of(purged.nodes),
            end_node: number_of(nodes),
            first_escape: number_of(purged.escapes),
            end_escape: number_of(escapes),
            ..tangle
        };
        self.put_tangle(purged.tangles, moved);
        let top = if moved.escapes() == tangle.escapes() {
            purged.top
        } else {
            self.level_of(moved, regions).unwrap_or(0).max(purged.top)
        };
        Purged {
            tangles: purged.tangles.wrapping_add(1),
            nodes,
            escapes,
            top,
            has_dominion: purged.has_dominion || moved.is_dominion(),
        }
    }

    /// Moves the nodes of `tangle` to the index `to` of the list of all. Returns the index after them.
    fn keep_nodes(&mut self, tangle: Tangle, to: usize) -> usize {
        let mut end = to;
        for index in tangle.first_node..tangle.end_node {
            if let Some(node) = self.node(index) {
                self.put_node(number_of(end), node);
                end = end.wrapping_add(1);
            }
        }
        end
    }

    /// Moves the escapes of `tangle` that are not won to where those that are kept end. Returns the index after them.
    fn keep_escapes(&mut self, tangle: Tangle, purged: Purged, regions: &NumberTable) -> usize {
        let mut end = purged.escapes;
        for index in tangle.first_escape..tangle.end_escape {
            let node = match self.escapes.get(index as usize) {
                Some(escape) => escape.node,
                None => NONE,
            };
            if is_in_play(regions.at(node)) {
                self.put_escape(end, Escape::to(node));
                self.link(number_of(end), number_of(purged.tangles));
                end = end.wrapping_add(1);
            }
        }
        end
    }
}
