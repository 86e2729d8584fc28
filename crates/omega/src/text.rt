ghost use Rattle.std.specs.Prelude.{◌≡◌, IfOk, None, Option, Some};
ghost use Rattle.std.specs.Option.{MatchOption};
ghost use Rattle.std.specs.Vec.{vec_len, vec_ptr};
ghost use Rattle.omega.specs.Held.{Kept, kept_owns, length_of, place_of};

mod loose;

use loose::Loose;
use std::alloc::{AllocError, Global};
use std::marker::Model;
use std::ptr::{null, null_mut};

/// A text in the hands of a caller in C, or none. The library made it and takes it back. C reads `bytes` and `length`,
/// and gives the whole to `omega_free`.
#[repr(C)]
pub struct Text {
    bytes: *const u8,
    length: usize,
    /// The box of the bytes, or null. C does not see what it points to.
    held: *mut u8,
    alloc: Global,
    pub ghost kept: { Option Kept },
    ghost shown: { (bytes ≡ place_of bytes kept) × (length ≡ length_of kept) },
}

impl Model for Text {
    ghost also_owns = { λ text. kept_owns text.alloc text.held text.kept };
}

impl Text {
    /// Returns a text for C.
    pub(crate) fn of(alloc: Global, text: Vec<u8>) -> Result<Text, AllocError>
        ensures { IfOk result (λ made. MatchOption made.kept ⊥ (λ v. v.items ≡ text.items)) }
    {
        let bytes = text.as_ptr();
        let length = text.len();
        let whole = Box::new(alloc, text)?;
        Ok(Text::of_box(bytes, length, Loose::of(whole)))
    }

    /// Returns no text, as C begins with it.
    pub(crate) fn nothing(alloc: Global) -> Text
        ensures { result.kept ≡ None }
    {
        Text {
            bytes: null(),
            length: 0,
            held: null_mut(),
            alloc,
        }
    }

    /// Hands over a box with where its bytes are and how many.
    fn of_box(bytes: *const u8, length: usize, whole: Loose<Vec<u8>, Global>) -> Text
        requires { (bytes ≡ vec_ptr whole.value) × (length ≡ vec_len whole.value) }
        ensures { result.kept ≡ Some whole.value }
    {
        let Loose { at, alloc } = whole;
        Text {
            bytes,
            length,
            held: at as *mut u8,
            alloc,
        }
    }

    /// Takes the box back, if there is a text.
    fn into_loose(self) -> Option<Loose<Vec<u8>, Global>>
        ensures { MatchOption result (self.kept ≡ None) (λ whole. self.kept ≡ Some whole.value) }
    {
        let Text {
            bytes: _,
            length: _,
            held,
            alloc,
        } = self;
        if held.is_null() {
            None
        } else {
            Some(Loose {
                at: held as *mut Vec<u8>,
                alloc,
            })
        }
    }
}

impl Drop for Text {
    fn drop(self) {
        if let Some(whole) = self.into_loose() {
            drop(whole.into_box());
        }
    }
}
