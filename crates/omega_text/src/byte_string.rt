ghost use Rattle.std.specs.Prelude.{◌≡◌, ◌≤◌, [], length, IfOk};
ghost use Rattle.omega_text.specs.private.ByteString.{bytes_in, fits_in_place};

use std::alloc::{AllocError, Global};
use std::marker::Model;

/// The number of bytes that are kept in place.
const MOST_IN_PLACE: usize = 14;

/// A string of bytes that contracts see as a list only. Up to fourteen bytes are kept in place and take no memory.
///
/// Names and words of headers are nearly always so short: they take 16 bytes, while a vector takes 24 and an
/// allocation.
#[derive(Debug)]
pub struct ByteString {
    held: Held,
}

impl Drop for ByteString {
    fn drop(self) {
        let ByteString { held: _ } = self;
    }
}

/// The bytes, in place or in an allocation.
#[derive(Debug, Drop)]
enum Held {
    /// In place: the first `count` of `bytes`.
    Short { count: u8, bytes: [u8; 14] },
    /// In an allocation.
    Long(Box<Vec<u8>>),
}

const _: () = prove!(std::mem::size_of::<ByteString>() <= 16);

impl Model for ByteString {
    ghost use Rattle.std.specs.Prelude.{List, ℕ};
    ghost use Rattle.omega_text.specs.private.ByteString.{bytes_in, fits_in_place};

    ghost Value = { List ℕ };

    ghost view = { λ s. bytes_in s.held };

    ghost invariant = { λ s. fits_in_place s.held };
}

impl ByteString {
    /// Returns the empty string.
    pub fn new() -> Self
        ensures { result ≡ [] }
    {
        ByteString {
            held: Held::Short {
                count: 0,
                bytes: [0; 14],
            },
        }
    }

    /// Copies `bytes` into a string. Takes memory for more than fourteen bytes.
    pub fn from_slice(alloc: Global, bytes: &[u8]) -> Result<Self, AllocError>
        ensures { IfOk result (λ string. string ≡ bytes.now) }
    {
        let held = if bytes.len() <= MOST_IN_PLACE {
            in_place(bytes)
        } else {
            in_memory(alloc, bytes)?
        };
        Ok(ByteString { held })
    }

    /// Returns the bytes.
    pub fn as_slice(&self) -> &[u8]
        ensures { result.now ≡ self.now }
    {
        match &self.held {
            Held::Short { count, bytes } => &bytes[..*count as usize],
            Held::Long(bytes) => bytes.as_slice(),
        }
    }

    /// Returns the number of bytes.
    pub fn len(&self) -> usize
        ensures { result ≡ length self.now }
    {
        self.as_slice().len()
    }
}

/// Copies at most fourteen bytes in place.
fn in_place(bytes: &[u8]) -> Held
    requires { length bytes.now ≤ 14 }
    ensures held { bytes_in result ≡ bytes.now }
    ensures fits { fits_in_place result }
{
    let mut copy = [0; 14];
    copy[..bytes.len()].copy_from_slice(bytes);
    Held::Short {
        count: bytes.len() as u8,
        bytes: copy,
    }
}

/// Copies `bytes` into an allocation.
fn in_memory(alloc: Global, bytes: &[u8]) -> Result<Held, AllocError>
    ensures held { IfOk result (λ held. bytes_in held ≡ bytes.now) }
    ensures fits { IfOk result fits_in_place }
{
    let mut copy = Vec::with_capacity(alloc, bytes.len())?;
    copy.extend_from_slice(bytes)?;
    Ok(Held::Long(Box::new(alloc, copy)?))
}

/// Returns a copy of `strings`. Takes the time of copying their bytes.
pub fn copy_of_strings(alloc: Global, strings: &[ByteString]) -> Result<Vec<ByteString>, AllocError>
    ensures { IfOk result (λ same. same.items ≡ strings.now) }
{
    let mut same = Vec::with_capacity(alloc, strings.len())?;
    for string in strings {
        same.push(ByteString::from_slice(alloc, string.as_slice())?)?;
    }
    Ok(same)
}

impl PartialEq for ByteString {
    ghost use Rattle.std.specs.Prelude.{nat_eq};
    ghost use Rattle.std.specs.Cmp.Lexicographic.{pointwise};
    ghost use Rattle.std.proofs.Common.{rules};
    ghost use Rattle.std.specs.Cmp.Rules.{comparing};

    ghost eq = { pointwise nat_eq };

    ghost laws = { Prim.search (comparing, rules) };

    fn eq(&self, other: &ByteString) -> bool {
        self.as_slice() == other.as_slice()
    }
}

impl Eq for ByteString {
    ghost use Rattle.std.proofs.Common.{rules};
    ghost use Rattle.std.specs.Cmp.Rules.{comparing};

    ghost laws = { Prim.search (comparing, rules) };
}
