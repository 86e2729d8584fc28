ghost use Rattle.std.specs.Prelude.{◌≡◌, ℕ, ◌+◌, ◌-◌, ◌^◌, ◌<◌, ◌≤◌, List};
ghost use Rattle.std.specs.Prelude.{Option, None, length, IfOk, OnOk, IsOkUnless};
ghost use Rattle.std.specs.Io.KnownBytes.{WriteAppends};
ghost use Rattle.omega_io.specs.Failures.{failures_of};
ghost use Rattle.omega_io.specs.declared.reason.Reason.{Reason};

use crate::reason::Reason;
use omega_text::Refusal;
use std::io::Write;

/// A sink that a command writes to: a writer of `std` that also counts its failed writes, and keeps why the last of
/// them failed. Every error is such a failure, and so is a write that takes no byte of a text that is not empty.
pub trait Output {
    /// The bytes that the writer holds, if they are known.
    ghost contents: { Self → Option (List ℕ) };

    /// How many writes failed.
    ghost failed: { Self → ℕ };

    /// Why the last write that failed did, if the system tells.
    ghost reason: { Self → Option Reason };

    /// Takes a beginning of `from`, at least one byte if it has any. After [Refusal::Io] none is taken.
    fn write(&mut self, from: &[u8]) -> Result<usize, Refusal>
        requires { failed self.old < 2 ^ 64 - 1 }
        ensures bound { IfOk result (λ count. count ≤ length from.now) }
        ensures some { IfOk result (λ count. 0 < length from.now → 0 < count) }
        ensures bytes { WriteAppends (contents self.old) (contents self.new) result from.now }
        ensures counted { failed self.new ≡ failed self.old + failures_of result }
        ensures kept { OnOk result (reason self.new ≡ reason self.old) }
        ensures io { IsOkUnless result Refusal.Io };

    /// Returns how many writes failed so far. Nothing else changes the count.
    fn failures(&self) -> u64
        ensures { result ≡ failed self.now };

    /// Returns why the last write that failed did. It is none if the system does not tell, or no write failed.
    fn reason(&self) -> Option<Reason>
        ensures { result ≡ reason self.now };
}

/// A writer of `std` as an output.
#[derive(Drop)]
pub struct ToWrite<W: Write> {
    inner: W,
    failures: u64,
    reason: Option<Reason>,
}

impl<W: Write> ToWrite<W> {
    /// Makes an output of the writer `inner`, without a failed write.
    pub fn new(inner: W) -> ToWrite<W>
        ensures bytes { ⟦<ToWrite<W> as Output>⟧.contents result ≡ W.contents inner }
        ensures failures { ⟦<ToWrite<W> as Output>⟧.failed result ≡ 0 }
        ensures reason { ⟦<ToWrite<W> as Output>⟧.reason result ≡ None }
    {
        ToWrite {
            inner,
            failures: 0,
            reason: None,
        }
    }

    /// Returns the writer, with the bytes that were written to it.
    pub fn into_inner(self) -> W
        ensures { W.contents result ≡ ⟦<ToWrite<W> as Output>⟧.contents self }
    {
        let ToWrite {
            inner,
            failures: _,
            reason: _,
        } = self;
        inner
    }
}

impl<W: Write> Output for ToWrite<W> {
    ghost contents = { λ s. W.contents s.inner };

    ghost failed = { λ s. s.failures };

    ghost reason = { λ s. s.reason };

    fn write(&mut self, from: &[u8]) -> Result<usize, Refusal> {
        match self.inner.write(from) {
            Ok(count) if count > 0 || from.is_empty() => Ok(count),
            Ok(_) => {
                self.failures += 1;
                self.reason = None;
                Err(Refusal::Io)
            }
            Err(error) => {
                self.failures += 1;
                self.reason = Reason::of(error.kind());
                Err(Refusal::Io)
            }
        }
    }

    fn failures(&self) -> u64 {
        self.failures
    }

    fn reason(&self) -> Option<Reason> {
        self.reason
    }
}
