ghost use Rattle.std.specs.Prelude.{◌≡◌, ◌++◌, ◌<◌, IfOk, IfSome, OnOk, IsOkUnless, length};
ghost use Rattle.omega_game_values.specs.Winning.{IsStrategy};
ghost use Rattle.omega_answers_game.specs.solve.AnswerText.{answer_text, lifts_line, answer_line};
ghost use Rattle.omega_answers_game.specs.private.steps.Places.{MarksNodes, places_from};

use crate::player_text::append_player;
use omega_game::{ForwardGame, Player, Refusal};
use omega_text::write_number;
use std::alloc::Global;

/// Returns the answer text for `player`: the number of lifts, and for each node won its identifier and that of the
/// chosen successor.
pub fn write_answer(
    alloc: Global,
    game: &ForwardGame,
    player: Player,
    lifts: u64,
    won: &[bool],
    choices: &[Option<u32>],
) -> Result<Vec<u8>, Refusal>
    requires places { MarksNodes game.now won.now }
    requires strategy { IsStrategy game.now player choices.now }
    ensures text { IfOk result
        (λ text. text.items ≡ answer_text player lifts game.now (places_from 0 won.now) choices.now) }
    ensures memory { IsOkUnless result Refusal.Memory }
{
    game.keeps_limits();
    let mut out = Vec::new(alloc);
    append_lifts(player, lifts, &mut out)?;
    for (place, is_won) in won.iter().enumerate() {
        if *is_won {
            append_won(game, place as u32, choices[place], &mut out)?;
        }
    }
    Ok(out)
}

fn append_lifts(player: Player, lifts: u64, out: &mut Vec<u8>) -> Result<(), Refusal>
    ensures text { OnOk result (out.new.items ≡ out.old.items ++ lifts_line player lifts) }
    ensures memory { IsOkUnless result Refusal.Memory }
{
    append_player(player, out)?;
    out.extend_from_slice(b" lifts ")?;
    write_number(u128::from(lifts), out)?;
    out.extend_from_slice(b"\n")?;
    Ok(())
}

fn append_won(
    game: &ForwardGame,
    place: u32,
    choice: Option<u32>,
    out: &mut Vec<u8>,
) -> Result<(), Refusal>
    requires node { place < length game.now }
    requires successor { IfSome choice (λ w. w < length game.now) }
    ensures text { OnOk result (out.new.items ≡ out.old.items ++ answer_line game.now place choice) }
    ensures memory { IsOkUnless result Refusal.Memory }
{
    write_number(u128::from(game.id(place)), out)?;
    if let Some(successor) = choice {
        out.extend_from_slice(b" ")?;
        write_number(u128::from(game.id(successor)), out)?;
    }
    out.extend_from_slice(b";\n")?;
    Ok(())
}
