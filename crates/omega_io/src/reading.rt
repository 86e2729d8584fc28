ghost use Rattle.std.specs.Prelude.{◌≡◌, ◌≢◌, ◌+◌, ◌-◌, ◌^◌, ◌<◌, ◌≤◌, IfOk, IfErr, IsOkUnless, length, take};
ghost use Rattle.std.specs.Io.KnownBytes.{IsAtEnd};
ghost use Rattle.omega_text.specs.Limits.{most_text};
ghost use Rattle.omega_io.specs.Failures.{IsTransferRefusal, failures_of};
ghost use Rattle.omega_io.specs.Reading.{ConsumesFrom, ReadsFrom};

use crate::input::Input;
use omega_text::{MOST_TEXT, Refusal};
use std::alloc::Global;

/// The most bytes that one read asks for.
pub const PIECE: usize = 4096;

/// Reads `input` up to its end, or up to the first byte past the greatest length of a text. Refused with
/// [Refusal::Memory], or with [Refusal::Io] if a read fails.
pub fn read_all<R: Input>(alloc: Global, input: &mut R) -> Result<Vec<u8>, Refusal>
    requires { R.failed input.old < 2 ^ 64 - 1 }
    ensures read { IfOk result (λ text. ReadsFrom R.Input input.old input.new text.items) }
    ensures counted { R.failed input.new ≡ R.failed input.old + failures_of result }
    ensures refused { IfErr result IsTransferRefusal }
{
    let mut text = Vec::new(alloc);
    let mut piece = [0; PIECE];
    while text.len() <= MOST_TEXT {
        let count = read_piece(input, text.len(), &mut piece)?;
        if count == 0 {
            return Ok(text);
        }
        text.extend_from_slice(&piece[..count])?;
    }
    Ok(text)
}

/// Reads the next bytes of a text into `piece`, after `total` bytes that were read before, up to the first byte past
/// the greatest length of a text. It reads none only at the end of the input. Refused with [Refusal::Io].
pub fn read_piece<R: Input>(input: &mut R, total: usize, piece: &mut [u8]) -> Result<usize, Refusal>
    requires reads { R.failed input.old < 2 ^ 64 - 1 }
    requires more { total ≤ most_text }
    requires room { 0 < length piece.old }
    ensures bound { IfOk result (λ count. count ≤ length piece.new) }
    ensures limit { IfOk result (λ count. total + count ≤ most_text + 1) }
    ensures consumed { IfOk result
        (λ count. ConsumesFrom R.Input input.old input.new (take count piece.new)) }
    ensures end { IfOk result (λ count. count ≡ 0 → IsAtEnd (R.remaining input.new)) }
    ensures counted { R.failed input.new ≡ R.failed input.old + failures_of result }
    ensures io { IsOkUnless result Refusal.Io }
{
    let room = (MOST_TEXT + 1 - total).min(piece.len());
    input.read(&mut piece[..room])
}
