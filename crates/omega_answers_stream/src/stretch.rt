//! Stretches of an input: their bytes are read, and then taken.

ghost use Rattle.std.specs.Prelude.{◌≡◌, ◌+◌, ◌-◌, ◌^◌, ◌<◌, ◌≤◌, IfErr, IfOk, false, true, vec_len};
ghost use Rattle.std.specs.Io.KnownBytes.{IsAtEnd};
ghost use Rattle.omega_text.specs.Limits.{most_text};
ghost use Rattle.omega_io.specs.Failures.{IsTransferRefusal, failures_of};
ghost use Rattle.omega_io.specs.Reading.{ConsumesFrom};
ghost use Rattle.omega_answers_stream.specs.private.steps.Following.{IsReadingSome, ReadsOn};
ghost use Rattle.omega_answers_stream.specs.private.steps.Question.{AreAskedBy};

use crate::asking::Asking;
use crate::item_question::ItemQuestion;
use crate::segments::take_segments;
use omega_io::{Input, PIECE, read_piece};
use omega_text::{MOST_TEXT, Refusal};
use std::alloc::Global;

/// About the most bytes of a stretch. One of fewer ends with the input, or past the greatest length of a text.
const LONG: usize = 1_048_576;

/// A stretch of an input that was read.
#[derive(Clone, Copy)]
pub(crate) struct Stretch {
    /// The number of its bytes.
    pub(crate) count: usize,
    /// Whether the input ended after it.
    pub(crate) last: bool,
}

/// Reads a stretch of `input`, after `total` bytes that were read before, and takes its bytes, unless they exceed the
/// greatest length of a text.
pub(crate) fn take_stretch<Q: ItemQuestion, R: Input>(
    alloc: Global,
    input: &mut R,
    question: &Q,
    asking: &mut Asking,
    total: usize,
) -> Result<Stretch, Refusal>
    requires failed { R.failed input.old < 2 ^ 64 - 1 }
    requires short { total ≤ most_text }
    requires so_far { IsReadingSome (AreAskedBy Q.ItemQuestion question.now)
        (R.remaining input.old) total asking.old }
    ensures read { IfOk result (λ stretch. ReadsOn (AreAskedBy Q.ItemQuestion question.now)
        (R.remaining input.old) (R.remaining input.new)
        total (total + stretch.count) asking.old asking.new) }
    ensures limit { IfOk result (λ stretch. total + stretch.count ≤ most_text + 1) }
    ensures more { IfOk result (λ stretch. stretch.last ≡ false → 0 < stretch.count) }
    ensures end { IfOk result (λ stretch. stretch.last ≡ true → IsAtEnd (R.remaining input.new)) }
    ensures whole { IfOk result (λ stretch. stretch.last ≡ true → total + stretch.count ≤ most_text) }
    ensures counted { R.failed input.new ≡ R.failed input.old + failures_of result }
    ensures refused { IfErr result IsTransferRefusal }
{
    let bytes = read_stretch(alloc, input, total)?;
    let count = bytes.len();
    if total + count > MOST_TEXT {
        return Ok(Stretch { count, last: false });
    }
    let last = count < LONG;
    take_segments::<Q>(alloc, question, asking, bytes.as_slice(), last)?;
    Ok(Stretch { count, last })
}

/// Reads a stretch of `input`, after `total` bytes that were read before: the bytes that are left, or about as many as
/// `LONG`, up to the first byte past the greatest length of a text.
fn read_stretch<R: Input>(alloc: Global, input: &mut R, total: usize) -> Result<Vec<u8>, Refusal>
    requires failed { R.failed input.old < 2 ^ 64 - 1 }
    requires short { total ≤ most_text }
    ensures consumed { IfOk result (λ bytes. ConsumesFrom R.Input input.old input.new bytes.items) }
    ensures limit { IfOk result (λ bytes. total + vec_len bytes ≤ most_text + 1) }
    ensures end { IfOk result (λ bytes. vec_len bytes < 1048576
        → total + vec_len bytes ≤ most_text → IsAtEnd (R.remaining input.new)) }
    ensures counted { R.failed input.new ≡ R.failed input.old + failures_of result }
    ensures refused { IfErr result IsTransferRefusal }
{
    let room = LONG.min(MOST_TEXT + 1 - total);
    let mut bytes = Vec::new(alloc);
    let mut piece = [0; PIECE];
    while bytes.len() < room {
        let count = read_piece(input, total + bytes.len(), &mut piece)?;
        if count == 0 {
            return Ok(bytes);
        }
        bytes.extend_from_slice(&piece[..count])?;
    }
    Ok(bytes)
}
