//! Zielonka's recursive algorithm (Zielonka 1998), without recursion and on flat arrays (van Dijk 2018): the open
//! subgames, each within the one before, and the step from one to the next.
//!
//! The top nodes of a subgame are the places of its greatest priorities, as long as these are of one parity. Their
//! player wins them unless the opponent can avoid them. So the player's attractor to them is taken out, and the rest is
//! solved as a subgame. If the opponent wins none of the rest, the player wins the whole subgame. Else the opponent
//! wins its attractor to the part that it won, and the remaining places are solved again. On some games this takes
//! exponential time, as on a chain of nodes that lead to themselves.
//!
//! The places that a player wins form an order which proves the win. In what a subgame's player wins, the top nodes
//! come first, by falling priority. Then come the rest, and then the other places of the attractor to the top nodes,
//! the farthest first. So each edge leads forward in the order or back to a top node. The attractor to a won part comes
//! before that part, and what is won later comes before what was won earlier.
use crate::board::Board;
use crate::chains::{Chain, Chains};
use crate::subgame::{Subgame, Won};
use omega_game_values::{Game, Player};
use omega_graph_search::{NONE, number_of};
use std::alloc::{AllocError, Global};

/// The state of the search.
#[derive(Drop)]
pub(crate) struct Zielonka {
    board: Board,
    chains: Chains,
    // The places of the game in rising order of priorities. After them come copies of the places in play of some
    // subgames that have few. So the list is at most about twice as long as the game.
    places: Vec<u32>,
    open: Vec<Subgame>,
}

impl Zielonka {
    /// Makes the state with the whole game open. The priorities of `places` rise.
    pub(crate) fn new(
        alloc: Global,
        game: &Game,
        places: Vec<u32>,
        fuel: u64,
    ) -> Result<Zielonka, AllocError> {
        let board = Board::new(alloc, game, fuel)?;
        let chains = Chains::new(alloc, game.len())?;
        let count = number_of(places.len());
        let mut open = Vec::new(alloc);
        open.push(Subgame::new(0, count, count, count))?;
        Ok(Zielonka {
            board,
            chains,
            places,
            open,
        })
    }

    /// Returns how much fuel is left.
    pub(crate) fn fuel(&self) -> u64 {
        self.board.fuel()
    }

    /// Returns the lists of places.
    pub(crate) fn chains(&self) -> &Chains {
        &self.chains
    }

    /// Returns for each place the place that its owner moves to.
    pub(crate) fn into_moves(self) -> Vec<u32> {
        let Zielonka { board, .. } = self;
        board.into_moves()
    }

    /// Solves the game. Returns none if the fuel runs out.
    pub(crate) fn solve(&mut self, game: &Game) -> Result<Option<Won>, AllocError> {
        let mut won = None;
        // `loop` would need a proof that fuel is spent in each round.
        for _ in 0..u64::MAX {
            if self.fuel() == 0 {
                return Ok(None);
            }
            let subgame = match self.open.pop() {
                Some(subgame) => subgame,
                None => break,
            };
            won = match won {
                None => self.enter(game, subgame)?,
                Some(inner) => self.leave(game, subgame, inner)?,
            };
        }
        Ok(won)
    }

    /// Returns the depth of the current subgame, which is not among the open ones.
    fn depth(&self) -> u32 {
        number_of(self.open.len()).saturating_add(1)
    }

    /// Takes the attractor to the top nodes out of `subgame`, and opens the rest. Returns what is won if nothing
    /// remains.
    fn enter(&mut self, game: &Game, subgame: Subgame) -> Result<Option<Won>, AllocError> {
        if subgame.size == 0 {
            self.places.truncate(subgame.kept as usize);
            return Ok(Some(subgame.won));
        }
        let subgame = self.compacted_subgame(subgame)?;
        let depth = self.depth();
        let (subgame, end) = self.with_top_nodes(game, subgame, depth)?;
        self.board
            .attract(game, subgame.player, depth, subgame.first)?;
        let taken = self.board.trail_length().saturating_sub(subgame.first);
        let size = subgame.size.saturating_sub(taken);
        self.open.push(subgame)?;
        if size == 0 {
            return Ok(Some(Won::NOTHING));
        }
        let kept = number_of(self.places.len());
        self.open
            .push(Subgame::new(subgame.start, end, kept, size))?;
        Ok(None)
    }

    /// Gives `subgame` a list of its own places if at most half of its range is in play.
    fn compacted_subgame(&mut self, subgame: Subgame) -> Result<Subgame, AllocError> {
        let range = subgame.end.saturating_sub(subgame.start);
        if subgame.size > range / 2 {
            return Ok(subgame);
        }
        self.board.spend(range as usize);
        let start = number_of(self.places.len());
        for position in subgame.start..subgame.end {
            let place = self.place_at(position);
            if self.board.is_in_play(place) {
                self.places.push(place)?;
            }
        }
        let end = number_of(self.places.len());
        Ok(Subgame {
            start,
            end,
            ..subgame
        })
    }

    /// Returns the place at `position` of the list of places, or `NONE` past its end.
    #[inline(always)]
    fn place_at(&self, position: u32) -> u32 {
        match self.places.get(position as usize) {
            Some(place) => *place,
            None => NONE,
        }
    }

    /// Takes out the top nodes of `subgame`: the places in play of its greatest priorities, as long as these are of one
    /// parity. Also returns the position before which all other places in play are.
    fn with_top_nodes(
        &mut self,
        game: &Game,
        subgame: Subgame,
        depth: u32,
    ) -> Result<(Subgame, u32), AllocError> {
        let first = self.board.trail_length();
        let mut player = Player::Zero;
        let mut top_nodes: u32 = 0;
        let mut end = subgame.start;
        for position in (subgame.start..subgame.end).rev() {
            let place = self.place_at(position);
            self.board.spend(1);
            if !self.board.is_in_play(place) {
                continue;
            }
            let winner = player_of(game, place);
            if top_nodes == 0 {
                player = winner;
            } else if winner != player {
                end = position.saturating_add(1);
                break;
            }
            self.board.take(place, depth)?;
            top_nodes = top_nodes.saturating_add(1);
        }
        let subgame = Subgame {
            player,
            first,
            top_nodes,
            ..subgame
        };
        Ok((subgame, end))
    }

    /// Continues `subgame` after its rest is solved, in which `inner` was won. Returns what is won of it if it is done.
    fn leave(
        &mut self,
        game: &Game,
        subgame: Subgame,
        inner: Won,
    ) -> Result<Option<Won>, AllocError> {
        let depth = self.depth();
        let other = subgame.player.opponent();
        let lost = inner.of(other);
        let kept = inner.of(subgame.player);
        if lost.is_empty() {
            return Ok(Some(self.close(game, subgame, kept, depth)));
        }
        let outside = depth.saturating_sub(1);
        let _ = self.put_all(kept, NONE);
        let count = self.put_all(lost, outside);
        let from = self.board.trail_length();
        self.attract_to_all(game, other, outside, lost)?;
        self.board.attract(game, other, outside, from)?;
        let attracted = self.board.trail_length().saturating_sub(from);
        let lost = self.trail_before(from, lost);
        let won = self.chains.concatenation(lost, subgame.won.of(other));
        let size = subgame.size.saturating_sub(count).saturating_sub(attracted);
        let subgame = Subgame {
            size,
            won: subgame.won.with(other, won),
            ..subgame
        };
        if attracted == 0 {
            return Ok(Some(self.close(game, subgame, kept, depth)));
        }
        self.reopen(subgame, depth);
        self.open.push(subgame)?;
        Ok(None)
    }

    /// Sets the depth of each place of `chain`, and returns their number.
    fn put_all(&mut self, chain: Chain, depth: u32) -> u32 {
        let mut count: u32 = 0;
        let mut place = chain.first;
        for _ in 0..NONE {
            if place == NONE {
                break;
            }
            self.board.put(place, depth);
            count = count.saturating_add(1);
            place = self.chains.next_place(place);
        }
        self.board.spend(count as usize);
        count
    }

    /// Takes out the places from which `player` forces a visit to a place of `chain` by one step.
    #[inline(never)]
    fn attract_to_all(
        &mut self,
        game: &Game,
        player: Player,
        depth: u32,
        chain: Chain,
    ) -> Result<(), AllocError> {
        let mut place = chain.first;
        for _ in 0..NONE {
            if place == NONE {
                break;
            }
            self.board.attract_to(game, player, depth, place)?;
            place = self.chains.next_place(place);
        }
        Ok(())
    }

    /// Moves the places of the trail from `from` on in front of `chain`, the last first, and cuts the trail there.
    fn trail_before(&mut self, from: u32, chain: Chain) -> Chain {
        let mut chain = chain;
        for position in from..self.board.trail_length() {
            let place = self.board.on_trail(position);
            chain = self.chains.with_front(place, chain);
        }
        self.board.cut(from);
        chain
    }

    /// Puts what was taken out for the top nodes of `subgame` back in play, except for what was lost.
    fn reopen(&mut self, subgame: Subgame, depth: u32) {
        for position in subgame.first..self.board.trail_length() {
            let place = self.board.on_trail(position);
            if self.board.is_in(place, depth) {
                self.board.put(place, NONE);
            }
        }
        self.board.cut(subgame.first);
    }

    /// Ends `subgame`: its player wins all that the opponent did not win. These are the top nodes, what was kept of the
    /// rest, and the attractor to the top nodes. Returns what each player won of the whole.
    fn close(&mut self, game: &Game, subgame: Subgame, kept: Chain, depth: u32) -> Won {
        let player = subgame.player;
        let forced = subgame.first.saturating_add(subgame.top_nodes);
        let attracted = self.trail_before(forced, Chain::EMPTY);
        for position in subgame.first..forced {
            let place = self.board.on_trail(position);
            self.board.choose(game, player, depth, place);
        }
        let following = self.chains.concatenation(kept, attracted);
        let mut all = following;
        for position in (subgame.first..forced).rev() {
            let place = self.board.on_trail(position);
            all = self.chains.with_front(place, all);
        }
        self.board.cut(subgame.first);
        self.places.truncate(subgame.kept as usize);
        let won = self.chains.concatenation(all, subgame.won.of(player));
        subgame.won.with(player, won)
    }
}

/// Returns the player for whom the priority of `place` wins.
fn player_of(game: &Game, place: u32) -> Player {
    if (place as usize) < game.len() && Player::Zero.loses(game.priority(place)) {
        Player::One
    } else {
        Player::Zero
    }
}
