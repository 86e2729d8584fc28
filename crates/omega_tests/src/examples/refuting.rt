//! A strategy is checked, and a walk is written that shows why it does not win.
use omega_game::{ForwardGame, Lasso, Player, Refusal, Strategy, counterexample};
use omega_text::write_number;
use std::alloc::Global;

/// Returns what is written of a player's strategy at a place: `it wins`, or a walk to a cycle on which the player
/// loses.
pub fn report(
    alloc: Global,
    game: &ForwardGame,
    player: Player,
    place: u32,
    strategy: &Strategy,
) -> Result<Vec<u8>, Refusal> {
    if place as usize >= game.len() || !strategy.fits(game, player) {
        return Ok(Vec::from_slice(alloc, b"no strategy of this player for this game\n")?);
    }
    match counterexample(alloc, game, player, &[place], strategy)? {
        None => Ok(Vec::from_slice(alloc, b"it wins\n")?),
        Some(lasso) => walk_text(alloc, &lasso),
    }
}

/// Returns the places of a walk: those before its cycle, and those of the cycle.
fn walk_text(alloc: Global, lasso: &Lasso) -> Result<Vec<u8>, Refusal> {
    let mut out = Vec::from_slice(alloc, b"it loses: by")?;
    write_places(lasso.stem.as_slice(), &mut out)?;
    out.extend_from_slice(b" and then for ever round")?;
    write_places(lasso.cycle.as_slice(), &mut out)?;
    out.push(b'\n')?;
    Ok(out)
}

fn write_places(places: &[u32], out: &mut Vec<u8>) -> Result<(), Refusal> {
    for place in places {
        out.push(b' ')?;
        write_number(u128::from(*place), out)?;
    }
    Ok(())
}

#[cfg(test)]
mod tests {
    use super::*;
    use crate::examples::solving::three_nodes;
    use omega_game::Seq;
    use std::test::Fail;

    fn report_of(alloc: Global, strategy: &Strategy) -> Result<Vec<u8>, Refusal> {
        let game = three_nodes(alloc)?;
        report(alloc, &game, Player::Zero, 2, strategy)
    }

    // At place 0 player 0 moves to the successor given; the other places are player 1's.
    fn report_of_choice(alloc: Global, successor: u32) -> Result<Vec<u8>, Refusal> {
        let choice = vec![in alloc; Some(successor), None, None]?;
        let strategy = Strategy {
            choice: Seq::from_vec(choice),
        };
        report_of(alloc, &strategy)
    }

    #[test]
    fn only_node_2_is_a_good_choice(rt: HostRuntime) -> Result<(), Fail> {
        let (wins, loses) = (
            "it wins\n",
            "it loses: by 2 0 and then for ever round 1 0\n",
        );
        let none = "no strategy of this player for this game\n";
        for (successor, wanted) in [(2, wins), (1, loses), (0, none)] {
            let said = report_of_choice(rt.alloc(), successor)?;
            assert_eq!(rt; said.as_slice(), wanted.as_bytes());
        }
        Ok(())
    }
}
