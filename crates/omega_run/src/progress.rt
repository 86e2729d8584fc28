//! Lines on standard error that report how far runs have come.
ghost use Rattle.std.specs.Prelude.{◌≡◌, ◌++◌, ◌-◌, ◌^◌, ◌<◌, ◌≤◌, ℕ, max, codes, decimal};
ghost use Rattle.omega_run.specs.Progress.{progress_line};
ghost use Rattle.omega_run.specs.private.steps.Telling.{TellsOn};

use itoa::Buffer;
use omega_io::{Output, write_text};
use omega_solve::budget::{Progress, Reporter};

/// Reports on an output, line by line, how far runs have come. The lines and what is written after them are one text:
/// once a write of it failed, no more of it is written.
#[derive(Drop)]
pub(crate) struct ProgressLines {
    /// After how many more lifts there is a line, but never after none.
    pub(crate) every: u64,
    /// How many writes had failed before the first line.
    pub(crate) sound: u64,
}

impl<E: Output> Reporter<E> for ProgressLines {
    ghost pace = { λ lines. max 1 lines.every };

    ghost tells = { λ lines progress before after. TellsOn lines.sound (E.contents before)
        (E.contents after) (E.failed before) (E.failed after) (progress_line progress) };

    fn every(&self) -> u64 {
        self.every.max(1)
    }

    fn report(&self, errors: &mut E, progress: Progress) {
        tell_on(errors, self.sound, b"player ");
        tell_number(errors, self.sound, u64::from(progress.player.number()));
        tell_on(errors, self.sound, b": ");
        tell_number(errors, self.sound, progress.lifts);
        tell_on(errors, self.sound, b" lifts of at most ");
        tell_number(errors, self.sound, progress.most);
        tell_on(errors, self.sound, b"\n");
    }
}

/// Writes a number in decimal after the text so far, unless more than `sound` writes have failed. It takes no memory.
pub(crate) fn tell_number<E: Output>(errors: &mut E, sound: u64, number: u64)
    ensures { TellsOn sound (E.contents errors.old) (E.contents errors.new) (E.failed errors.old)
        (E.failed errors.new) (decimal number) }
{
    let mut buffer = Buffer::new();
    tell_on(errors, sound, buffer.format(number).as_bytes());
}

/// Writes a text after the text so far, unless more than `sound` writes have failed.
pub(crate) fn tell_on<E: Output>(errors: &mut E, sound: u64, text: &[u8])
    ensures { TellsOn sound (E.contents errors.old) (E.contents errors.new) (E.failed errors.old)
        (E.failed errors.new) text.now }
{
    if errors.failures() == sound && sound < u64::MAX {
        let _ = write_text(errors, text);
    }
}
