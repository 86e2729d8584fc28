ghost use Rattle.std.specs.Prelude.{◌≡◌, None, Some};

use omega_io::{Input, Reason, Refusal};
use std::io::Read;

/// A text in memory as an input. Its reads do not fail.
#[derive(Drop)]
pub struct HeldText<'a> {
    rest: &'a [u8],
}

impl<'a> HeldText<'a> {
    /// Takes `text` as the text that reads will give.
    pub fn new(text: &'a [u8]) -> HeldText<'a>
        ensures bytes { ⟦<HeldText<'a> as Input>⟧.remaining result ≡ Some text.now }
        ensures failures { ⟦<HeldText<'a> as Input>⟧.failed result ≡ 0 }
        ensures reason { ⟦<HeldText<'a> as Input>⟧.reason result ≡ None }
    {
        HeldText { rest: text }
    }
}

impl<'a> Input for HeldText<'a> {
    ghost remaining = { λ s. Some s.rest.now };

    ghost failed = { λ s. 0 };

    ghost reason = { λ s. None };

    fn read(&mut self, into: &mut [u8]) -> Result<usize, Refusal> {
        match self.rest.read(into) {
            Ok(count) => Ok(count),
            Err(_) => Ok(0),
        }
    }

    fn failures(&self) -> u64 {
        0
    }

    fn reason(&self) -> Option<Reason> {
        None
    }
}
