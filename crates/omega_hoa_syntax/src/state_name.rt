ghost use Rattle.std.specs.Prelude.{◌≡◌, None, Some, IfOk, option_map};

use omega_text::ByteString;
use std::alloc::{AllocError, Global};
use std::marker::Model;

/// The bytes of a state's name between its quotes, as they are, or none. An empty name differs from none. Contracts see
/// an optional list.
///
/// Few states have a name. It takes 16 bytes, while an `Option<ByteString>` takes 24, and takes memory only if there is
/// a name.
#[derive(Debug)]
pub struct StateName {
    bytes: Option<Box<ByteString>>,
}

impl Drop for StateName {
    fn drop(self) {
        let StateName { bytes: _ } = self;
    }
}

const _: () = prove!(std::mem::size_of::<StateName>() <= 16);

impl Model for StateName {
    ghost use Rattle.std.specs.Prelude.{List, Option, ℕ, option_map};

    ghost Value = { Option (List ℕ) };

    ghost view = { λ n. option_map (λ bytes. bytes.value) n.bytes };
}

impl StateName {
    /// Makes the absent name.
    pub fn absent() -> Self
        ensures { result ≡ None }
    {
        StateName { bytes: None }
    }

    /// Makes the name `bytes`. Returns an error if a request for memory is refused.
    pub fn of(alloc: Global, bytes: ByteString) -> Result<Self, AllocError>
        ensures { IfOk result (λ name. name ≡ Some bytes) }
    {
        let bytes = Box::new(alloc, bytes)?;
        Ok(StateName { bytes: Some(bytes) })
    }

    /// Returns the bytes of the name, if there is one.
    pub fn as_slice(&self) -> Option<&[u8]>
        ensures { option_map (λ bytes. bytes.now) result ≡ self.now }
    {
        match &self.bytes {
            Some(bytes) => Some(bytes.as_slice()),
            None => None,
        }
    }
}
