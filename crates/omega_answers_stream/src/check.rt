ghost use Rattle.std.specs.Prelude.{◌≡◌, ◌+◌, ◌-◌, ◌^◌, ◌<◌, IfOk, IfErr};
ghost use Rattle.omega_io.specs.Failures.{failures_of};
ghost use Rattle.omega_io.specs.Reading.{ReadsWhole};
ghost use Rattle.omega_answers_stream.specs.Check.{IsStreamCheckAnswer};
ghost use Rattle.omega_answers_stream.specs.Refusing.{RefusesStream};

use crate::Input;
use crate::counting::count_stream;
use omega_text::Refusal;
use std::alloc::Global;

/// Returns `accepted` if `input` gives the text of a stream of automata, and the number of these automata. An aborted
/// segment is none. Fails with the [Refusal::Text] or [Refusal::Automaton] of the stream, or with [Refusal::Io] if a
/// read failed.
pub fn check_stream<R: Input>(alloc: Global, input: &mut R) -> Result<(Vec<u8>, usize), Refusal>
    requires { R.failed input.old < 2 ^ 64 - 1 }
    ensures answer { IfOk result (λ made. ReadsWhole (R.remaining input.old)
        (R.remaining input.new) (λ text. IsStreamCheckAnswer text made.0.items made.1)) }
    ensures refused { IfErr result (RefusesStream (R.remaining input.old) (R.remaining input.new)) }
    ensures counted { R.failed input.new ≡ R.failed input.old + failures_of result }
{
    let automata = count_stream(alloc, input)?;
    Ok((Vec::from_slice(alloc, b"accepted\n")?, automata))
}
