ghost use Rattle.std.specs.Prelude.{◌≡◌, ◌+◌, ◌-◌, ◌^◌, ◌<◌, IfOk, IfErr};
ghost use Rattle.omega_io.specs.Failures.{failures_of};
ghost use Rattle.omega_io.specs.Reading.{ReadsWhole};
ghost use Rattle.omega_canon.specs.Stream.{canonical_item};
ghost use Rattle.omega_answers_stream.specs.Canon.{IsStreamCanonAnswer};
ghost use Rattle.omega_answers_stream.specs.Refusing.{RefusesStream};

use crate::{Input, Item, ItemText, tell_stream};
use omega_canon::write_canonical;
use omega_text::Refusal;
use std::alloc::Global;

/// Returns the canonical texts of the automata of the stream that `input` gives, one after the other. Fails with the
/// [Refusal::Text] or [Refusal::Automaton] of the stream, or with [Refusal::Io] if a read failed.
pub fn canon_stream<R: Input>(alloc: Global, input: &mut R) -> Result<Vec<u8>, Refusal>
    requires { R.failed input.old < 2 ^ 64 - 1 }
    ensures answer { IfOk result (λ output. ReadsWhole (R.remaining input.old)
        (R.remaining input.new) (λ text. IsStreamCanonAnswer text output.items)) }
    ensures refused { IfErr result (RefusesStream (R.remaining input.old) (R.remaining input.new)) }
    ensures counted { R.failed input.new ≡ R.failed input.old + failures_of result }
{
    tell_stream::<CanonicalPart, R>(alloc, input)
}

/// The text for an item: the canonical text of an automaton.
struct CanonicalPart;

impl ItemText for CanonicalPart {
    ghost text = { λ _ item. canonical_item item };

    fn append(_number: usize, item: &Item, out: &mut Vec<u8>) -> Result<(), Refusal> {
        if let Item::Automaton(automaton) = item {
            write_canonical(automaton, out)?;
        }
        Ok(())
    }
}
