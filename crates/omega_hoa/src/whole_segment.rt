ghost use Rattle.std.specs.Prelude.{◌≡◌, ◌<◌, ◌≤◌, drop, length, IfSome};
ghost use Rattle.omega_hoa.specs.private.dividing.Next.{IsProgressSome, IsWholeRead};

use crate::division::Division;
use crate::progress::ReadProgress;
use crate::segment::read_front;
use omega_hoa_automaton::Automaton;
use omega_text::{ByteTokenizer, HoaKind, HoaTokenizer, TokenKind};
use std::alloc::Global;

/// A whole segment that was read at once, and ends with `--END--`.
#[derive(Drop)]
pub(crate) struct WholeSegment {
    pub(crate) automaton: Automaton,
    /// How far the bytes were read then.
    pub(crate) progress: ReadProgress,
    /// The place after the segment.
    pub(crate) end: usize,
}

/// Reads the segment that begins at `place`, if all its bytes are there, it ends with `--END--`, and its reading is not
/// refused. `None` may come for an accepted segment too.
///
/// The bytes of the segment are read once, and none after them.
pub(crate) fn read_whole(
    alloc: Global,
    bytes: &[u8],
    first: usize,
    place: usize,
    progress: &ReadProgress,
) -> Option<WholeSegment>
    requires within { place < length bytes.now }
    requires so_far { IsProgressSome bytes.now first place progress.now }
    ensures forward { IfSome result (λ whole. place < whole.end) }
    ensures end { IfSome result (λ whole. whole.end ≤ length bytes.now) }
    ensures read { IfSome result (λ whole.
        IsWholeRead bytes.now first place progress.now whole.automaton whole.end whole.progress) }
{
    if first + place != progress.division.begins {
        return None;
    }
    match read_front(alloc, tail(bytes, place)) {
        None => None,
        Some((automaton, count)) => {
            HoaKind::goes_on_one_way();
            let end = place + count;
            let begins = first + end;
            let tokenizer = HoaTokenizer::after(begins);
            tokenizer.read_is_settled();
            Some(WholeSegment {
                automaton,
                progress: ReadProgress {
                    tokenizer,
                    division: Division {
                        begins,
                        inside: false,
                    },
                },
                end,
            })
        }
    }
}

/// Returns the bytes from `from` on.
fn tail(bytes: &[u8], from: usize) -> &[u8]
    requires { from ≤ length bytes.now }
    ensures { result.now ≡ drop from bytes.now }
{
    &bytes[from..]
}
