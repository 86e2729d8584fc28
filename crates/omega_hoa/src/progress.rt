ghost use Rattle.std.specs.Prelude.{◌+◌, ◌<◌, ◌≤◌, length, IfErr, IfOk, IsTrue};
ghost use Rattle.omega_hoa.specs.private.dividing.Next.{Extends, IsNothing, IsPassedTo};
ghost use Rattle.omega_hoa.specs.private.dividing.Next.{IsProgressSome, IsReadAs, IsRefusedFrom};

use crate::division::{Division, take_all};
use crate::item::Item;
use crate::whole_segment::{WholeSegment, read_whole};
use omega_text::{ByteTokenizer, HoaTokenizer, Refusal, Settled};
use std::alloc::Global;

/// How far the bytes of a stream were read.
#[derive(Clone, Copy)]
pub(crate) struct ReadProgress {
    pub(crate) tokenizer: HoaTokenizer,
    pub(crate) division: Division,
}

/// Reads the bytes from `from` to their end, and appends the items of the segments that end there to `out`.
///
/// Refused with a `TextFault` but never [TextFault::TooLong], with an `AutomatonFault` or with [Refusal::Memory].
/// After a refusal `out` has the items of the segments before.
///
/// `bytes` are those of the text from `first` on. Those of a segment that is whole in them from its first on, and is
/// not refused, are read once. Others are scanned once, and those of a segment that ends up to twice more.
pub(crate) fn read_bytes(
    alloc: Global,
    bytes: &[u8],
    first: usize,
    from: usize,
    progress: ReadProgress,
    out: &mut Vec<Item>,
) -> Result<ReadProgress, Refusal>
    requires within { from ≤ length bytes.now }
    requires so_far { IsProgressSome bytes.now first from progress }
    ensures read { IfOk result
        (IsReadAs bytes.now first from (length bytes.now) progress out.old.items out.new.items) }
    ensures refused { IfErr result
        (IsRefusedFrom bytes.now first from progress out.old.items out.new.items) }
    ensures extends { Extends out.old.items out.new.items }
{
    let mut reached = progress;
    let mut place = from;
    while place < bytes.len() {
        let (after, end) = read_some(alloc, bytes, first, place, reached, out)?;
        reached = after;
        place = end;
    }
    Ok(reached)
}

/// Reads a whole segment, or else some bytes from `place` on. Also returns the place after what was read.
fn read_some(
    alloc: Global,
    bytes: &[u8],
    first: usize,
    place: usize,
    progress: ReadProgress,
    out: &mut Vec<Item>,
) -> Result<(ReadProgress, usize), Refusal>
    requires within { place < length bytes.now }
    requires so_far { IsProgressSome bytes.now first place progress }
    ensures forward { IfOk result (λ read. place < read.1) }
    ensures end { IfOk result (λ read. read.1 ≤ length bytes.now) }
    ensures read { IfOk result
        (λ read. IsReadAs bytes.now first place read.1 progress out.old.items out.new.items read.0) }
    ensures refused { IfErr result
        (IsRefusedFrom bytes.now first place progress out.old.items out.new.items) }
    ensures extends { Extends out.old.items out.new.items }
{
    match read_whole(alloc, bytes, first, place, &progress) {
        Some(
            WholeSegment {
                automaton,
                progress: after,
                end,
            },
        ) => {
            out.push(Item::Automaton(automaton))?;
            Ok((after, end))
        }
        None => read_on(alloc, bytes, first, place, progress, out),
    }
}

/// Reads bytes from `place` on: inside a segment those up to one that may end it or settles a fault, and then that
/// byte. Also returns the place after them.
fn read_on(
    alloc: Global,
    bytes: &[u8],
    first: usize,
    place: usize,
    progress: ReadProgress,
    out: &mut Vec<Item>,
) -> Result<(ReadProgress, usize), Refusal>
    requires within { place < length bytes.now }
    requires so_far { IsProgressSome bytes.now first place progress }
    ensures forward { IfOk result (λ read. place < read.1) }
    ensures end { IfOk result (λ read. read.1 ≤ length bytes.now) }
    ensures read { IfOk result
        (λ read. IsReadAs bytes.now first place read.1 progress out.old.items out.new.items read.0) }
    ensures refused { IfErr result
        (IsRefusedFrom bytes.now first place progress out.old.items out.new.items) }
    ensures extends { Extends out.old.items out.new.items }
{
    let (after, end) = pass_inside(bytes, first, place, progress);
    if end == bytes.len() {
        return Ok((after, end));
    }
    let read = read_byte(alloc, bytes, first, end, after, out)?;
    Ok((read, end + 1))
}

/// Reads bytes inside a segment from `from` on, up to one that may end it or settles a fault. Also returns the place of
/// that byte.
fn pass_inside(
    bytes: &[u8],
    first: usize,
    from: usize,
    progress: ReadProgress,
) -> (ReadProgress, usize)
    requires within { from ≤ length bytes.now }
    requires so_far { IsProgressSome bytes.now first from progress }
    ensures forward { from ≤ result.1 }
    ensures end { result.1 ≤ length bytes.now }
    ensures read { IsPassedTo bytes.now first from result.1 progress result.0 }
{
    if !progress.division.inside {
        return (progress, from);
    }
    let mut tokenizer = progress.tokenizer;
    let end = tokenizer.pass(bytes, from);
    let after = ReadProgress {
        tokenizer,
        division: progress.division,
    };
    (after, end)
}

/// Reads the byte at `place`.
fn read_byte(
    alloc: Global,
    bytes: &[u8],
    first: usize,
    place: usize,
    progress: ReadProgress,
    out: &mut Vec<Item>,
) -> Result<ReadProgress, Refusal>
    requires within { place < length bytes.now }
    requires so_far { IsProgressSome bytes.now first place progress }
    ensures read { IfOk result
        (IsReadAs bytes.now first place (place + 1) progress out.old.items out.new.items) }
    ensures refused { IfErr result
        (IsRefusedFrom bytes.now first place progress out.old.items out.new.items) }
    ensures extends { Extends out.old.items out.new.items }
{
    let mut tokenizer = progress.tokenizer;
    let settled = tokenizer.step(bytes[place]);
    if is_nothing(&settled) {
        return Ok(ReadProgress {
            tokenizer,
            division: progress.division,
        });
    }
    let division = take_all(alloc, bytes, first, progress.division, settled, out)?;
    Ok(ReadProgress {
        tokenizer,
        division,
    })
}

/// Whether `settled` has neither a token nor a fault.
#[inline(always)]
fn is_nothing(settled: &Settled) -> bool
    ensures { IsTrue result → IsNothing settled.now }
{
    settled.first.is_none() && settled.second.is_none() && settled.fault.is_none()
}
