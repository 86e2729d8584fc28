ghost use Rattle.std.specs.Prelude.{◌≡◌, [], None, Some};

use omega_run::{Output, Reason, Refusal};
use std::alloc::Global;

/// An output that holds in memory what is written to it. A write fails only if there is no memory for it, and then
/// there is no reason of the system.
#[derive(Drop)]
pub(crate) struct MemoryOutput {
    bytes: Vec<u8>,
    failures: u64,
}

impl MemoryOutput {
    /// Makes an output to which nothing was written.
    pub(crate) fn new(alloc: Global) -> MemoryOutput
        ensures bytes { ⟦<MemoryOutput as Output>⟧.contents result ≡ Some [] }
        ensures failures { ⟦<MemoryOutput as Output>⟧.failed result ≡ 0 }
    {
        MemoryOutput {
            bytes: Vec::new(alloc),
            failures: 0,
        }
    }

    /// Returns the bytes that were written.
    pub(crate) fn into_bytes(self) -> Vec<u8>
        ensures { ⟦<MemoryOutput as Output>⟧.contents self ≡ Some result.items }
    {
        let MemoryOutput { bytes, failures: _ } = self;
        bytes
    }
}

impl Output for MemoryOutput {
    ghost contents = { λ o. Some o.bytes.items };

    ghost failed = { λ o. o.failures };

    ghost reason = { λ o. None };

    fn write(&mut self, from: &[u8]) -> Result<usize, Refusal> {
        match self.bytes.extend_from_slice(from) {
            Ok(()) => Ok(from.len()),
            Err(_) => {
                self.failures += 1;
                Err(Refusal::Io)
            }
        }
    }

    fn failures(&self) -> u64 {
        self.failures
    }

    fn reason(&self) -> Option<Reason> {
        None
    }
}
