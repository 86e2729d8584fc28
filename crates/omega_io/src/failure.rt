ghost use Rattle.std.specs.Prelude.{◌≡◌};
ghost use Rattle.omega_io.specs.Failures.{failure_of};

use crate::output::Output;
use crate::reason::Reason;

/// The stream that failed, and why, if the system tells.
#[derive(Clone, Copy, Debug, PartialEq, Eq)]
pub enum Failure {
    /// A read of the input failed.
    Reading(Option<Reason>),
    /// A write of the output failed.
    Writing(Option<Reason>),
}

/// Returns which stream failed: the output if one of its writes did, else the input, with the reason `read`.
pub fn failure_of<W: Output>(read: Option<Reason>, output: &W) -> Failure
    ensures { result ≡ failure_of read (W.failed output.now) (W.reason output.now) }
{
    if output.failures() == 0 {
        Failure::Reading(read)
    } else {
        Failure::Writing(output.reason())
    }
}
