//! The search: passes over the game, each of which decomposes it anew where the last one changed something.
use crate::suggestion::Suggestion;
use crate::tangles::decomposition::Decomposition;
use crate::tangles::learning::Learning;
use crate::tangles::ranked_game::RankedGame;
use crate::tangles::region::{FREE, WON_BY_ONE, is_in_play};
use omega_game_values::Player;
use omega_graph_search::{ComponentSearch, NONE, NumberTable, number_of, numbers_below};
use std::alloc::{AllocError, Global};

/// The number of words for stored tangles, for each node and each edge.
const STORED_WORDS: u64 = 64;

/// The state of the search.
#[derive(Drop)]
pub(crate) struct TangleSearch<'g> {
    learning: Learning<'g>,
    components: ComponentSearch,
    // The nodes that were in play when this list was made, in rising order of priorities.
    nodes: Vec<u32>,
    most_words: u64,
}

impl<'g> TangleSearch<'g> {
    /// Makes the state in which all nodes of `game` are in play.
    pub(crate) fn new(
        alloc: Global,
        game: &'g RankedGame,
        fuel: u64,
    ) -> Result<TangleSearch<'g>, AllocError> {
        let decomposition = Decomposition::new(alloc, game, fuel)?;
        Ok(TangleSearch {
            learning: Learning::new(alloc, decomposition),
            components: ComponentSearch::among_none(alloc, game.len())?,
            nodes: numbers_below(alloc, number_of(game.len()))?,
            most_words: game.size().saturating_mul(STORED_WORDS),
        })
    }

    /// Returns how much fuel is left.
    pub(crate) fn fuel(&self) -> u64 {
        self.learning.decomposition.fuel()
    }

    /// Decides who wins each node. Returns whether the fuel lasted.
    pub(crate) fn solve(&mut self) -> Result<bool, AllocError> {
        self.learning.decomposition.win_loops()?;
        self.drop_won();
        let mut level = FREE;
        // `loop` would need a proof that fuel is spent in each round.
        for _ in 0..u64::MAX {
            if self.is_solved() {
                return Ok(true);
            }
            let before = self.give_up_regions(level);
            if !self.pass(before)? {
                return Ok(false);
            }
            level = match self.changed_level()? {
                Some(level) => level,
                None => return Ok(false),
            };
        }
        Ok(false)
    }

    /// Whether all nodes are won.
    fn is_solved(&self) -> bool {
        let decomposition = &self.learning.decomposition;
        decomposition.won.len() >= decomposition.game.len()
    }

    /// Whether no fuel is left, or no room for tangles.
    fn is_spent(&self) -> bool {
        let decomposition = &self.learning.decomposition;
        decomposition.fuel() == 0 || decomposition.tangles.words() > self.most_words
    }

    /// Frees the nodes of the regions at `level` and below. Returns before which index to look for free nodes.
    fn give_up_regions(&mut self, level: u32) -> u32 {
        let most = number_of(self.nodes.len());
        let decomposition = &mut self.learning.decomposition;
        let before = decomposition.give_up_regions(level, most);
        let looked_at = decomposition
            .tangles
            .count_free_escapes(&decomposition.regions);
        decomposition.spend(looked_at);
        before
    }

    /// Cuts the free nodes before the index `before` into regions and learns from each. Returns whether the fuel
    /// lasted.
    fn pass(&mut self, before: u32) -> Result<bool, AllocError> {
        self.learning.again = None;
        self.learning.has_dominion = false;
        for index in (0..before).rev() {
            let node = match self.nodes.get(index as usize) {
                Some(node) => *node,
                None => NONE,
            };
            if self.learning.decomposition.regions.at(node) == FREE {
                if self.is_spent() {
                    return Ok(false);
                }
                self.add_region(index.saturating_add(1))?;
            }
        }
        Ok(true)
    }

    /// Makes the region whose heads are before the index `before`, and learns from it.
    fn add_region(&mut self, before: u32) -> Result<(), AllocError> {
        let decomposition = &mut self.learning.decomposition;
        let region = decomposition.begin_region(self.nodes.as_slice(), before)?;
        decomposition.attract(region)?;
        if decomposition.finds_closed_part(region)? {
            if decomposition.is_shut(region) {
                self.learning.store_whole(region)?;
            } else {
                self.learning.begin(region);
                self.search_components(region.start, region.level)?;
                self.learning.list_nodes();
            }
        }
        self.learning.decomposition.take_back(region);
        Ok(())
    }

    /// Finds the components of the closed part of the region at `level`, whose nodes begin at the position `start`.
    fn search_components(&mut self, start: u32, level: u32) -> Result<(), AllocError> {
        let end = number_of(self.learning.decomposition.order.len());
        for position in start..end {
            let node = self.learning.decomposition.in_order(position);
            if self.learning.decomposition.regions.at(node) == level {
                self.components.set_waiting(node);
            }
        }
        for position in start..end {
            let node = self.learning.decomposition.in_order(position);
            self.components.search_from(&mut self.learning, node)?;
        }
        Ok(())
    }

    /// Takes the dominions that the last pass found out of play. Returns the greatest level whose region may come out
    /// differently in the next pass, or none if nothing was found.
    fn changed_level(&mut self) -> Result<Option<u32>, AllocError> {
        if !self.learning.has_dominion {
            return Ok(self.learning.again);
        }
        let decomposition = &mut self.learning.decomposition;
        let top = decomposition.win_dominions()?;
        let left = decomposition
            .game
            .len()
            .saturating_sub(decomposition.won.len());
        if left < self.nodes.len() / 2 {
            self.drop_won();
            return Ok(Some(FREE));
        }
        Ok(Some(top.max(self.learning.again.unwrap_or(0))))
    }

    /// Drops the nodes that are won from the list of those in play.
    fn drop_won(&mut self) {
        let mut kept: usize = 0;
        for index in 0..self.nodes.len() {
            let node = self.nodes[index];
            if is_in_play(self.learning.decomposition.regions.at(node)) {
                if kept < self.nodes.len() {
                    self.nodes[kept] = node;
                }
                kept = kept.wrapping_add(1);
            }
        }
        self.nodes.truncate(kept);
    }

    /// Returns the winners and choices, with the order in which the nodes were won, the last first.
    pub(crate) fn into_suggestion(self, alloc: Global) -> Result<Suggestion, AllocError> {
        let decomposition = &self.learning.decomposition;
        let game = decomposition.game;
        let mut winners = vec![in alloc; Player::Zero; game.len()]?;
        let mut moves = NumberTable::filled(alloc, game.len(), NONE)?;
        let mut order = Vec::with_capacity(alloc, game.len())?;
        for node in decomposition.won.iter().rev() {
            let place = game.place(*node);
            order.push(place)?;
            moves.put(place, game.place(decomposition.choice(*node)));
            if decomposition.regions.at(*node) == WON_BY_ONE && (place as usize) < winners.len() {
                winners[place as usize] = Player::One;
            }
        }
        Ok(Suggestion {
            winners,
            moves: moves.into_items(),
            order,
        })
    }
}
