ghost use Rattle.std.specs.Prelude.{◌≡◌};
ghost use Rattle.omega.specs.Giving.{IsTextOutcome, IsVerdictOutcome};
ghost use Rattle.omega.specs.TextOutcome.{verdict_number};
ghost use Rattle.omega_io.specs.Refused.{about_none};
ghost use Rattle.omega_text.specs.declared.refusal.Refusal.TheVariants.{Memory};

use crate::text::Text;
use crate::text_outcome::TextOutcome;
use omega_io::Exit;
use omega_text::Refusal;
use std::alloc::Global;

/// Puts `output` into `out`, and takes back the text that was there. Without memory for it `out` stays.
pub(crate) fn give(alloc: Global, output: Vec<u8>, out: &mut Text) -> TextOutcome
    ensures { IsTextOutcome (λ text. text ≡ output.items) (λ refused. refused ≡ about_none Memory)
        result out.old out.new }
{
    match Text::of(alloc, output) {
        Ok(text) => {
            *out = text;
            TextOutcome::success()
        }
        Err(_) => TextOutcome::of_one(Refusal::Memory),
    }
}

/// Puts `output` into `out` as [give] does, and into `verdict` 1 for [Exit::Done] and 0 for [Exit::No]. Without memory
/// both stay.
pub(crate) fn give_verdict(
    alloc: Global,
    exit: Exit,
    output: Vec<u8>,
    verdict: &mut u32,
    out: &mut Text,
) -> TextOutcome
    ensures { IsVerdictOutcome (λ made text. (made ≡ exit) × (text ≡ output.items))
        (λ refused. refused ≡ about_none Memory) result verdict.old verdict.new out.old out.new }
{
    match Text::of(alloc, output) {
        Ok(text) => {
            *out = text;
            *verdict = verdict_number(exit);
            TextOutcome::success()
        }
        Err(_) => TextOutcome::of_one(Refusal::Memory),
    }
}

/// Returns the number of a verdict.
fn verdict_number(exit: Exit) -> u32
    ensures { result ≡ verdict_number exit }
{
    match exit {
        Exit::Done => 1,
        Exit::No => 0,
    }
}
