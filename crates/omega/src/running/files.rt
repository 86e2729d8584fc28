ghost use Rattle.std.specs.Prelude.{◌≡◌};
ghost use Rattle.omega_text.specs.declared.refusal.Refusal.TheVariants.{Memory};

use omega_run::{InputFiles, Refusal, Unread};
use std::alloc::Global;

/// A text in memory, in the place of each file.
#[derive(Drop)]
pub(crate) struct OneFile<'a> {
    text: &'a [u8],
}

impl<'a> OneFile<'a> {
    /// Takes `text` as the text of each file.
    pub(crate) fn new(text: &'a [u8]) -> OneFile<'a>
        ensures { result.text.now ≡ text.entry.now }
    {
        OneFile { text }
    }
}

impl<'a> InputFiles for OneFile<'a> {
    ghost reads = { λ s _ text. text ≡ s.text.now };

    ghost refuses = { λ _ _ unread. unread.refusal ≡ Memory };

    fn read_file(&self, alloc: Global, _name: &str) -> Result<Vec<u8>, Unread> {
        match Vec::from_slice(alloc, self.text) {
            Ok(text) => Ok(text),
            Err(_) => Err(Unread {
                refusal: Refusal::Memory,
                reason: None,
            }),
        }
    }
}
