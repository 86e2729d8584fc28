//! Marks at the front of bytes.

ghost use Rattle.std.specs.Prelude.{◌≡◌, length, true, IfSome, IsTrue};
ghost use Rattle.omega_text.specs.hoa.Forms.{spelling};
ghost use Rattle.omega_text.specs.private.hoa.scanning.Modes.{BeginsAs};
ghost use Rattle.omega_text.specs.hoa.Pieces.{is_mark};

use super::kind::{HoaKind, spelling};

/// Returns the mark that `bytes` begin with.
#[inline(never)]
pub(super) fn front_mark(bytes: &[u8]) -> Option<HoaKind>
    ensures mark { IfSome result (λ kind. is_mark kind ≡ true) }
    ensures begins { IfSome result (λ kind. BeginsAs bytes.now (spelling kind)) }
{
    if is_marked(bytes, HoaKind::Body) {
        Some(HoaKind::Body)
    } else if is_marked(bytes, HoaKind::End) {
        Some(HoaKind::End)
    } else if is_marked(bytes, HoaKind::Abort) {
        Some(HoaKind::Abort)
    } else {
        None
    }
}

/// Whether `bytes` begin with the spelling of `kind`.
#[inline(always)]
fn is_marked(bytes: &[u8], kind: HoaKind) -> bool
    ensures { IsTrue result → BeginsAs bytes.now (spelling kind) }
{
    let text = spelling(kind);
    bytes.len() >= text.len() && &bytes[..text.len()] == text
}
