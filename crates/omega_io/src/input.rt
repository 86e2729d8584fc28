ghost use Rattle.std.specs.Prelude.{◌≡◌, ℕ, ◌+◌, ◌-◌, ◌^◌, ◌<◌, ◌≤◌, List};
ghost use Rattle.std.specs.Prelude.{Option, None, length, IfOk, OnOk, IsOkUnless};
ghost use Rattle.std.specs.Io.KnownBytes.{ReadConsumes};
ghost use Rattle.omega_io.specs.Failures.{failures_of};
ghost use Rattle.omega_io.specs.declared.reason.Reason.{Reason};

use crate::reason::Reason;
use omega_text::Refusal;
use std::io::Read;

/// A source that a command reads: a reader of `std` that also counts its failed reads, and keeps why the last of them
/// failed. Every error is such a failure, an interrupted call too.
pub trait Input {
    /// The bytes that reads will give from here on, if they are known.
    ghost remaining: { Self → Option (List ℕ) };

    /// How many reads failed.
    ghost failed: { Self → ℕ };

    /// Why the last read that failed did, if the system tells.
    ghost reason: { Self → Option Reason };

    /// Reads some bytes into `into`: none only at the end of the input, or if `into` is empty. Refused with
    /// [Refusal::Io].
    fn read(&mut self, into: &mut [u8]) -> Result<usize, Refusal>
        requires { failed self.old < 2 ^ 64 - 1 }
        ensures bound { IfOk result (λ count. count ≤ length into.new) }
        ensures bytes { ReadConsumes (remaining self.old) (remaining self.new) result into.new }
        ensures counted { failed self.new ≡ failed self.old + failures_of result }
        ensures kept { OnOk result (reason self.new ≡ reason self.old) }
        ensures io { IsOkUnless result Refusal.Io };

    /// Returns how many reads failed so far. Nothing else changes the count.
    fn failures(&self) -> u64
        ensures { result ≡ failed self.now };

    /// Returns why the last read that failed did. It is none if the system does not tell, or no read failed.
    fn reason(&self) -> Option<Reason>
        ensures { result ≡ reason self.now };
}

/// A reader of `std` as an input.
#[derive(Drop)]
pub struct FromRead<R: Read> {
    inner: R,
    failures: u64,
    reason: Option<Reason>,
}

impl<R: Read> FromRead<R> {
    /// Makes an input of the bytes of `inner`, without a failed read.
    pub fn new(inner: R) -> FromRead<R>
        ensures bytes { ⟦<FromRead<R> as Input>⟧.remaining result ≡ R.remaining inner }
        ensures failures { ⟦<FromRead<R> as Input>⟧.failed result ≡ 0 }
        ensures reason { ⟦<FromRead<R> as Input>⟧.reason result ≡ None }
    {
        FromRead {
            inner,
            failures: 0,
            reason: None,
        }
    }
}

impl<R: Read> Input for FromRead<R> {
    ghost remaining = { λ s. R.remaining s.inner };

    ghost failed = { λ s. s.failures };

    ghost reason = { λ s. s.reason };

    fn read(&mut self, into: &mut [u8]) -> Result<usize, Refusal> {
        match self.inner.read(into) {
            Ok(count) => Ok(count),
            Err(error) => {
                self.failures += 1;
                self.reason = Reason::of(error.kind());
                Err(Refusal::Io)
            }
        }
    }

    fn failures(&self) -> u64 {
        self.failures
    }

    fn reason(&self) -> Option<Reason> {
        self.reason
    }
}
