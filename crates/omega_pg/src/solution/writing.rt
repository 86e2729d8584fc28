ghost use Rattle.std.specs.Prelude.{◌≡◌, ◌<◌, ◌++◌, IfOk, IfSome, IsOkUnless, OnOk, length, option_map};
ghost use Rattle.omega_game_values.specs.Game.{IsGame, identifier_at};
ghost use Rattle.omega_game_values.specs.Solution.{IsSolution};
ghost use Rattle.omega_pg.specs.solution.Text.{line_at};
ghost use Rattle.omega_pg.specs.solution.Canonical.{choice_part, solution_line, solution_text};

use crate::game::writing::write_part;
use omega_game_values::{ForwardGame, Refusal, Solution};
use omega_text::write_number;
use std::alloc::Global;

/// Returns the text of a `solution` of `game`.
///
/// If it has at most `MOST_TEXT` bytes, it is read back to the same solution, by `laws::written_solutions_are_read`.
/// The cost is linear in the nodes.
pub fn write_solution(
    alloc: Global,
    game: &ForwardGame,
    solution: &Solution,
) -> Result<Vec<u8>, Refusal>
    requires { IsSolution game.now solution.now }
    ensures text { IfOk result (λ text. text.items ≡ solution_text game.now solution.now) }
    ensures memory { IsOkUnless result Refusal.Memory }
{
    let nodes = game.len();
    let mut out = Vec::with_capacity(alloc, 32 + 16 * nodes)?;
    out.extend_from_slice(b"paritysol ")?;
    write_number(u128::from(game.id(nodes as u32 - 1)), &mut out)?;
    out.extend_from_slice(b";\n")?;
    for place in 0..nodes as u32 {
        write_line(game, solution, place, &mut out)?;
    }
    Ok(out)
}

/// Appends the line of the node at `place`.
fn write_line(
    game: &ForwardGame,
    solution: &Solution,
    place: u32,
    out: &mut Vec<u8>,
) -> Result<(), Refusal>
    requires solution { IsSolution game.now solution.now }
    requires game { IsGame game.now }
    requires place { place < length game.now }
    ensures ok { OnOk result
        (out.new.items ≡ out.old.items ++ solution_line (line_at game.now solution.now place)) }
    ensures memory { IsOkUnless result Refusal.Memory }
{
    write_part(game.id(place), out)?;
    let winner = solution.winners.as_slice()[place as usize];
    write_number(u128::from(winner.number()), out)?;
    write_choice(game, solution.choice(game.owner(place), place), out)?;
    out.extend_from_slice(b";\n")?;
    Ok(())
}

/// Appends a space and the identifier of the node that is the `choice`, if there is one.
fn write_choice(game: &ForwardGame, choice: Option<u32>, out: &mut Vec<u8>) -> Result<(), Refusal>
    requires { IfSome choice (λ place. place < length game.now) }
    ensures ok { OnOk result
        (out.new.items ≡ out.old.items ++ choice_part (option_map (identifier_at game.now) choice)) }
    ensures memory { IsOkUnless result Refusal.Memory }
{
    if let Some(place) = choice {
        out.push(b' ')?;
        write_number(u128::from(game.id(place)), out)?;
    }
    Ok(())
}
