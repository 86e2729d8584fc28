ghost use Rattle.std.specs.Prelude.{◌≡◌, ◌++◌, OnOk, IsOkUnless};
ghost use Rattle.omega_answers_game.specs.PlayerText.{player_text};

use omega_game::{Player, Refusal};
use omega_text::write_number;

/// Appends the beginning of a line about `player`. If a request for memory is refused, part of it may be appended.
pub fn append_player(player: Player, out: &mut Vec<u8>) -> Result<(), Refusal>
    ensures text { OnOk result (out.new.items ≡ out.old.items ++ player_text player) }
    ensures memory { IsOkUnless result Refusal.Memory }
{
    out.extend_from_slice(b"player ")?;
    write_number(u128::from(player.number()), out)
}
