//! Learning tangles: the bottom components of the closed part of a region, where its player keeps to the choices made.
use crate::tangles::decomposition::Decomposition;
use crate::tangles::region::{Region, is_in_play};
use crate::tangles::tangle::TangleNode;
use omega_graph_search::{NONE, SearchedGraph, number_of};
use std::alloc::{AllocError, Global};
use std::slice;

/// A decomposition that learns tangles from the components of closed parts. A cursor is an index in a list of
/// successors.
#[derive(Drop)]
pub(crate) struct Learning<'g> {
    pub decomposition: Decomposition<'g>,
    // The region that is searched.
    region: Region,
    // By component of its closed part where the next of its nodes is listed, or none if it is no tangle; and the mark
    // before that of the first component.
    listed: Vec<u32>,
    first_stamp: u32,
    // The greatest level to which a tangle of this pass is attracted, and whether one has no escapes.
    pub again: Option<u32>,
    pub has_dominion: bool,
}

impl<'g> Learning<'g> {
    /// Makes the state in which nothing is learned.
    pub(crate) fn new(alloc: Global, decomposition: Decomposition<'g>) -> Learning<'g> {
        Learning {
            decomposition,
            region: Region {
                level: NONE,
                start: 0,
                heads: 0,
                before: 0,
            },
            listed: Vec::new(alloc),
            first_stamp: 0,
            again: None,
            has_dominion: false,
        }
    }

    /// Prepares for a search of the closed part of `region`.
    pub(crate) fn begin(&mut self, region: Region) {
        self.region = region;
        self.listed.clear();
        self.first_stamp = self.decomposition.last_stamp;
    }

    /// Stores the whole closed part of `region`, which the opponent cannot leave.
    pub(crate) fn store_whole(&mut self, region: Region) -> Result<(), AllocError> {
        self.begin(region);
        let first_node = self.decomposition.tangles.node_count();
        for index in 0..self.size() {
            let node = self.node(index);
            if self.is_closed(node) {
                let planned = self.planned_node(node);
                self.decomposition.tangles.add_node(planned)?;
            }
        }
        let first_escape = self.decomposition.tangles.escape_count();
        self.add_tangle(first_node, first_escape)
    }

    /// Returns the number of nodes of the region.
    fn size(&self) -> u32 {
        number_of(self.decomposition.order.len()).saturating_sub(self.region.start)
    }

    /// Returns the node at `index` of the region, in the order in which a tangle is attracted: first what was attracted
    /// to the heads, and then the heads, the last first.
    fn node(&self, index: u32) -> u32 {
        let Region { start, heads, .. } = self.region;
        let attracted = self.size().saturating_sub(heads);
        let offset = if index < attracted {
            heads.wrapping_add(index)
        } else {
            self.size().wrapping_sub(index).wrapping_sub(1)
        };
        self.decomposition.in_order(start.wrapping_add(offset))
    }

    /// Whether `node` is in the closed part of the region.
    fn is_closed(&self, node: u32) -> bool {
        self.decomposition.regions.at(node) == self.region.level
    }

    /// Returns `node` with what the player of the region chose there.
    fn planned_node(&self, node: u32) -> TangleNode {
        let choice = if self.is_own(node) {
            self.decomposition.choice(node)
        } else {
            NONE
        };
        TangleNode { node, choice }
    }

    /// Whether the player of the region owns `node`.
    #[inline(always)]
    fn is_own(&self, node: u32) -> bool {
        self.decomposition.game.owner(node) == self.region.player()
    }

    /// Makes a tangle of the nodes and escapes from these indices on.
    fn add_tangle(&mut self, first_node: u32, first_escape: u32) -> Result<(), AllocError> {
        let player = self.region.player();
        let decomposition = &mut self.decomposition;
        let tangle = decomposition
            .tangles
            .add_tangle(player, first_node, first_escape)?;
        match decomposition
            .tangles
            .level_of(tangle, &decomposition.regions)
        {
            Some(level) => {
                self.again = match self.again {
                    Some(again) if level < again => Some(again),
                    _ => Some(level),
                };
            }
            None => self.has_dominion = true,
        }
        Ok(())
    }

    /// Lists the nodes of each tangle that was found in the region in the order in which they are attracted.
    pub(crate) fn list_nodes(&mut self) {
        for index in 0..self.size() {
            let node = self.node(index);
            if self.is_closed(node) {
                self.list_node(node);
            }
        }
    }

    /// Lists `node` as the next one of its tangle, if it is in one.
    fn list_node(&mut self, node: u32) {
        let stamp = self.decomposition.stamps.at(node);
        let component = stamp.wrapping_sub(self.first_stamp).wrapping_sub(1) as usize;
        if component >= self.listed.len() || self.listed[component] == NONE {
            return;
        }
        let index = self.listed[component];
        let planned = self.planned_node(node);
        self.decomposition.tangles.put_node(index, planned);
        self.listed[component] = index.wrapping_add(1);
    }

    /// Whether no edge leads from a component to another of the closed part, and one leads inside. Lists its escapes.
    fn is_bottom(&mut self, component: &[u32], stamp: u32) -> Result<bool, AllocError> {
        let mut has_edge = false;
        for node in component {
            if self.is_own(*node) {
                let choice = self.decomposition.choice(*node);
                if self.decomposition.stamps.at(choice) != stamp {
                    return Ok(false);
                }
                has_edge = true;
            } else {
                match self.has_inner_edge(*node, stamp)? {
                    Some(has_inner) => has_edge = has_edge || has_inner,
                    None => return Ok(false),
                }
            }
        }
        Ok(has_edge)
    }

    /// Whether an edge leads from `node` into its component, or none if one leads to another of the closed part. Lists
    /// its escapes.
    fn has_inner_edge(&mut self, node: u32, stamp: u32) -> Result<Option<bool>, AllocError> {
        let game = self.decomposition.game;
        let mut has_inner = false;
        let successors = game.successors(node);
        self.decomposition.spend(successors.len());
        for next in successors {
            let next = *next;
            let at = self.decomposition.regions.at(next);
            let is_marked = self.decomposition.stamps.at(next) == stamp;
            if at == self.region.level {
                if !is_marked {
                    return Ok(None);
                }
                has_inner = true;
            } else if is_in_play(at) && !is_marked {
                self.decomposition.stamps.put(next, stamp);
                self.decomposition.tangles.add_escape(next)?;
            }
        }
        Ok(Some(has_inner))
    }
}

impl<'g> SearchedGraph for Learning<'g> {
    const LISTS_AS_LEFT: bool = true;

    #[inline(always)]
    fn first(&mut self, _node: u32) -> u32 {
        self.decomposition.spend(1);
        0
    }

    #[inline(always)]
    fn run(&self, node: u32, cursor: u32) -> &[u32] {
        if self.is_own(node) {
            if cursor > 0 {
                return &[];
            }
            return match self.decomposition.choices.get(node as usize) {
                Some(choice) => slice::from_ref(choice),
                None => &[],
            };
        }
        let successors = self.decomposition.game.successors(node);
        match successors.get(cursor as usize..successors.len()) {
            Some(run) => run,
            None => &[],
        }
    }

    #[inline(always)]
    fn after(&self, cursor: u32, count: u32) -> u32 {
        cursor.wrapping_add(count)
    }

    /// Stores the component if it is a tangle. Its nodes are put in order later.
    fn complete(&mut self, component: &[u32]) -> Result<(), AllocError> {
        let stamp = self.decomposition.new_stamp();
        for node in component {
            self.decomposition.stamps.put(*node, stamp);
        }
        let first_escape = self.decomposition.tangles.escape_count();
        if !self.is_bottom(component, stamp)? {
            self.decomposition.tangles.cut_escapes(first_escape);
            self.listed.push(NONE)?;
            return Ok(());
        }
        let first_node = self.decomposition.tangles.node_count();
        for node in component {
            let planned = self.planned_node(*node);
            self.decomposition.tangles.add_node(planned)?;
        }
        self.listed.push(first_node)?;
        self.add_tangle(first_node, first_escape)
    }
}
