use crate::chains::{Chain, Chains};
use crate::searcher::Searcher;
use crate::sorting::by_priority;
use crate::suggestion::{Finding, Suggestion};
use crate::tangles::{RankedGame, TangleSearch};
use crate::zielonka::Zielonka;
use omega_game_values::{Game, Player};
use omega_graph_search::NONE;
use std::alloc::{AllocError, Global};

/// Lets `searcher` search for the winning regions of `game`. It gives up if it uses up its `fuel`, of which a unit pays
/// for about one visit to an edge. Returns an error if a request for memory is refused.
pub fn search(
    alloc: Global,
    game: &Game,
    searcher: Searcher,
    fuel: u64,
) -> Result<Finding, AllocError> {
    match searcher {
        Searcher::Zielonka => finding_of_zielonka(alloc, game, fuel),
        Searcher::Tangles => finding_of_tangles(alloc, game, fuel),
    }
}

/// Returns what tangle learning finds.
fn finding_of_tangles(alloc: Global, game: &Game, fuel: u64) -> Result<Finding, AllocError> {
    let ranked = RankedGame::of(alloc, game)?;
    let mut tangles = TangleSearch::new(alloc, &ranked, fuel)?;
    let is_solved = tangles.solve()?;
    let edges = fuel.saturating_sub(tangles.fuel());
    let suggestion = if is_solved {
        Some(tangles.into_suggestion(alloc)?)
    } else {
        None
    };
    Ok(Finding { suggestion, edges })
}

/// Returns what Zielonka's algorithm finds.
fn finding_of_zielonka(alloc: Global, game: &Game, fuel: u64) -> Result<Finding, AllocError> {
    let places = by_priority(alloc, game)?;
    let mut zielonka = Zielonka::new(alloc, game, places, fuel)?;
    let solved = zielonka.solve(game)?;
    let edges = fuel.saturating_sub(zielonka.fuel());
    let won = match solved {
        Some(won) => won,
        None => {
            return Ok(Finding {
                suggestion: None,
                edges,
            });
        }
    };
    let mut order = Vec::with_capacity(alloc, game.len())?;
    let mut winners = vec![in alloc; Player::Zero; game.len()]?;
    list(zielonka.chains(), won.one, game.len(), &mut order)?;
    give(order.as_slice(), &mut winners);
    list(zielonka.chains(), won.zero, game.len(), &mut order)?;
    let suggestion = Some(Suggestion {
        winners,
        moves: zielonka.into_moves(),
        order,
    });
    Ok(Finding { suggestion, edges })
}

/// Appends the places of `chain` to `order`, at most `most` of them.
fn list(
    chains: &Chains,
    chain: Chain,
    most: usize,
    order: &mut Vec<u32>,
) -> Result<(), AllocError> {
    let mut place = chain.first;
    for _ in 0..most {
        if place == NONE {
            break;
        }
        order.push(place)?;
        place = chains.next_place(place);
    }
    Ok(())
}

/// Notes player 1 as the winner of `places`.
fn give(places: &[u32], winners: &mut Vec<Player>) {
    for place in places {
        let index = *place as usize;
        if index < winners.len() {
            winners[index] = Player::One;
        }
    }
}
