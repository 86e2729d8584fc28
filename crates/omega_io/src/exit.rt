ghost use Rattle.std.specs.Prelude.{◌≡◌};
ghost use Rattle.omega_io.specs.Exit.{refusal_status, status_of};

use omega_text::Refusal;

/// How a command that was not refused ended.
#[derive(Clone, Copy, Debug, PartialEq, Eq)]
pub enum Exit {
    /// It wrote its answer.
    Done,
    /// It answered in the negative: what it verified is wrong, or what it decided does not hold.
    No,
}

/// Returns the status with which the program ends after a command.
///
/// - 0: the command is done.
/// - 1: it is refused, and none of the next three applies.
/// - 3: [TaskFault::Budget].
/// - 4: [Refusal::Memory].
/// - 5: [Refusal::Io].
/// - 6: its answer is `no`.
///
/// After a fault of the command line the status is 2.
pub fn exit_code(outcome: &Result<Exit, Refusal>) -> u8
    ensures { result ≡ status_of outcome.now }
{
    match outcome {
        Ok(Exit::Done) => 0,
        Ok(Exit::No) => 6,
        Err(refusal) => refusal_status(*refusal),
    }
}

/// Returns the status after `refusal`.
fn refusal_status(refusal: Refusal) -> u8
    ensures { result ≡ refusal_status refusal }
{
    match refusal.number() {
        51 => 3,
        60 => 4,
        61 => 5,
        _ => 1,
    }
}
