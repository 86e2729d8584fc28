//! A game whose nodes are renamed by rising priority.
use crate::sorting::by_priority;
use omega_game_values::{Game, Player};
use omega_graph_search::{NONE, NumberTable, number_of};
use std::alloc::{AllocError, Global};

/// A game whose nodes are numbered from 0 by rising priority. A loop at which its owner loses is left out if the owner
/// can move elsewhere. An index past the last node has no neighbours.
#[derive(Drop)]
pub(crate) struct RankedGame {
    // By node its place in the game, and twice its level, plus one if player 1 owns it.
    places: Vec<u32>,
    levels: NumberTable,
    successors: Neighbours,
    predecessors: Neighbours,
}

impl RankedGame {
    /// Renames the nodes of `game`. Linear in its size.
    pub(crate) fn of(alloc: Global, game: &Game) -> Result<RankedGame, AllocError> {
        let places = by_priority(alloc, game)?;
        let levels = levels_along(alloc, game, places.as_slice())?;
        let mut ranks = NumberTable::filled(alloc, game.len(), NONE)?;
        for (rank, place) in places.iter().enumerate() {
            ranks.put(*place, number_of(rank));
        }
        let list = places.as_slice();
        let successors = Neighbours::of_places(alloc, game, list, &ranks, Direction::Ahead)?;
        let predecessors = Neighbours::of_places(alloc, game, list, &ranks, Direction::Behind)?;
        Ok(RankedGame {
            places,
            levels,
            successors,
            predecessors,
        })
    }

    /// Returns the number of nodes.
    pub(crate) fn len(&self) -> usize {
        self.places.len()
    }

    /// Returns the number of nodes and edges.
    pub(crate) fn size(&self) -> u64 {
        (self.places.len() as u64).saturating_add(self.successors.nodes.len() as u64)
    }

    /// Returns the place of `node` in the game.
    pub(crate) fn place(&self, node: u32) -> u32 {
        match self.places.get(node as usize) {
            Some(place) => *place,
            None => NONE,
        }
    }

    /// Returns the level of `node`. Nodes of one level have priorities of one parity, with none of the other between.
    #[inline(always)]
    pub(crate) fn level(&self, node: u32) -> u32 {
        self.levels.at(node) / 2
    }

    /// Returns the owner of `node`.
    #[inline(always)]
    pub(crate) fn owner(&self, node: u32) -> Player {
        player_of(self.levels.at(node))
    }

    /// Returns the successors of `node`.
    #[inline(always)]
    pub(crate) fn successors(&self, node: u32) -> &[u32] {
        self.successors.list(node)
    }

    /// Returns the predecessors of `node`, one entry for each edge.
    #[inline(always)]
    pub(crate) fn predecessors(&self, node: u32) -> &[u32] {
        self.predecessors.list(node)
    }
}

/// Returns the player for whom the priorities of `level` win.
#[inline(always)]
pub(crate) fn player_of(level: u32) -> Player {
    if level % 2 == 0 {
        Player::Zero
    } else {
        Player::One
    }
}

/// Returns for each of `places`, which are in rising order of priorities, twice its level, plus one if player 1 owns
/// it. The level has the parity of the priority.
fn levels_along(alloc: Global, game: &Game, places: &[u32]) -> Result<NumberTable, AllocError> {
    let mut levels = Vec::with_capacity(alloc, places.len())?;
    let mut level: u32 = 0;
    for place in places {
        if *place as usize >= game.len() {
            continue;
        }
        if game.priority(*place) % 2 != level % 2 {
            level = level.wrapping_add(1);
        }
        let owner = game.owner(*place).number();
        levels.push(level.wrapping_mul(2).wrapping_add(owner))?;
    }
    Ok(NumberTable::of(levels))
}

/// In which direction an edge is followed.
#[derive(Clone, Copy)]
enum Direction {
    Ahead,
    Behind,
}

/// The neighbours of each node in one direction.
#[derive(Drop)]
struct Neighbours {
    // By node the index of its first neighbour; then the number of all.
    first: NumberTable,
    nodes: Vec<u32>,
}

impl Neighbours {
    /// Lists the neighbours of each of `places`, by rank.
    fn of_places(
        alloc: Global,
        game: &Game,
        places: &[u32],
        ranks: &NumberTable,
        direction: Direction,
    ) -> Result<Neighbours, AllocError> {
        let mut first = Vec::with_capacity(alloc, places.len().saturating_add(1))?;
        let mut nodes = Vec::with_capacity(alloc, game.edges())?;
        for place in places {
            first.push(number_of(nodes.len()))?;
            if (*place as usize) < game.len() {
                let neighbours = match direction {
                    Direction::Ahead => game.successors(*place),
                    Direction::Behind => game.predecessors(*place),
                };
                append_ranks(game, ranks, *place, neighbours, &mut nodes)?;
            }
        }
        first.push(number_of(nodes.len()))?;
        Ok(Neighbours {
            first: NumberTable::of(first),
            nodes,
        })
    }

    /// Returns the neighbours of `node`.
    #[inline(always)]
    fn list(&self, node: u32) -> &[u32] {
        let start = self.first.at(node) as usize;
        let end = self.first.at(node.wrapping_add(1)) as usize;
        match self.nodes.get(start..end) {
            Some(nodes) => nodes,
            None => &[],
        }
    }
}

/// Appends the ranks of the neighbours of `place`, without the place itself if its loop is left out.
fn append_ranks(
    game: &Game,
    ranks: &NumberTable,
    place: u32,
    neighbours: &[u32],
    nodes: &mut Vec<u32>,
) -> Result<(), AllocError> {
    for neighbour in neighbours {
        if *neighbour != place || !is_loop_left_out(game, place) {
            nodes.push(ranks.at(*neighbour))?;
        }
    }
    Ok(())
}

/// Whether the owner of `place` loses in a loop there and can move elsewhere.
fn is_loop_left_out(game: &Game, place: u32) -> bool {
    (place as usize) < game.len()
        && game.owner(place).loses(game.priority(place))
        && game.successors(place).iter().any(|next| *next != place)
}
