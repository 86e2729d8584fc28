//! Bytes of a stream that are taken segment by segment.

ghost use Rattle.std.specs.Prelude.{◌≡◌, ◌+◌, ◌<◌, ◌≤◌, IfSome, IsOkUnless, OnOk, drop, length};
ghost use Rattle.omega_answers_stream.specs.private.steps.Following.{FollowsPiece, FollowsWithin};
ghost use Rattle.omega_answers_stream.specs.private.steps.Question.{AreAskedBy};

use crate::asking::{Asking, take_piece};
use crate::item_question::ItemQuestion;
use omega_io::PIECE;
use omega_text::Refusal;
use std::alloc::Global;

/// The number of bytes of the mark that ends a segment.
const MARK: usize = 7;

/// The number of bytes in which a mark is looked for, so that a long automaton is not searched for its end.
const NEAR: usize = 131_072;

/// Takes `bytes` in pieces, each up to the next `--END--`, as long as one is near. So an automaton is asked before the
/// next one is read, which then takes the memory that it had. The rest is taken at once if the input ends there, since
/// it may be one automaton.
pub(crate) fn take_segments<Q: ItemQuestion>(
    alloc: Global,
    question: &Q,
    asking: &mut Asking,
    bytes: &[u8],
    last: bool,
) -> Result<(), Refusal>
    requires { FollowsWithin (AreAskedBy Q.ItemQuestion question.now) (length bytes.now) asking.old }
    ensures follows { OnOk result
        (FollowsPiece (AreAskedBy Q.ItemQuestion question.now) bytes.now asking.old asking.new) }
    ensures memory { IsOkUnless result Refusal.Memory }
{
    let mut at = 0;
    while at < bytes.len() {
        match segment_end(bytes, at) {
            Some(end) => {
                take_piece::<Q>(alloc, question, asking, &bytes[at..end])?;
                at = end;
            }
            None => {
                take_rest::<Q>(alloc, question, asking, tail(bytes, at), last)?;
                return Ok(());
            }
        }
    }
    Ok(())
}

/// Takes `bytes` at once if they are the last, or else in two pieces. The first is short, so that a long automaton is
/// not read in vain as far as its bytes are there.
fn take_rest<Q: ItemQuestion>(
    alloc: Global,
    question: &Q,
    asking: &mut Asking,
    bytes: &[u8],
    last: bool,
) -> Result<(), Refusal>
    requires { FollowsWithin (AreAskedBy Q.ItemQuestion question.now) (length bytes.now) asking.old }
    ensures follows { OnOk result
        (FollowsPiece (AreAskedBy Q.ItemQuestion question.now) bytes.now asking.old asking.new) }
    ensures memory { IsOkUnless result Refusal.Memory }
{
    if last {
        return take_piece::<Q>(alloc, question, asking, bytes);
    }
    let middle = bytes.len().min(PIECE);
    take_piece::<Q>(alloc, question, asking, &bytes[..middle])?;
    take_piece::<Q>(alloc, question, asking, &bytes[middle..])
}

/// Returns the bytes from `from` on.
fn tail(bytes: &[u8], from: usize) -> &[u8]
    requires { from ≤ length bytes.now }
    ensures { result.now ≡ drop from bytes.now }
{
    &bytes[from..]
}

/// Returns the place after the next `--END--` from `from` on, whatever it stands in, if it ends before the `NEAR` next
/// bytes do. Looks at about one byte in seven.
fn segment_end(bytes: &[u8], from: usize) -> Option<usize>
    requires { from ≤ length bytes.now }
    ensures forward { IfSome result (λ end. from < end) }
    ensures within { IfSome result (λ end. end ≤ length bytes.now) }
{
    let limit = from + (bytes.len() - from).min(NEAR);
    let mut at = from;
    while limit - at >= MARK {
        let step = distance_to_mark(bytes[at + MARK - 1]);
        if step == 1 && &bytes[at..at + MARK] == b"--END--".as_slice() {
            return Some(at + MARK);
        }
        at += step;
    }
    None
}

/// Returns how many bytes later at least `--END--` begins, if it does not begin where `byte` would be its last one.
fn distance_to_mark(byte: u8) -> usize
    ensures some { 0 < result }
    ensures within { result ≤ 7 }
{
    match byte {
        b'-' => 1,
        b'D' => 2,
        b'N' => 3,
        b'E' => 4,
        _ => MARK,
    }
}
