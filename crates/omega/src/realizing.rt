ghost use Rattle.omega_answers_synth.specs.Refusing.{IsRealizeRefusal};
ghost use Rattle.omega_answers_synth.specs.Winner.{IsWinnerAnswer};
ghost use Rattle.omega_solve.specs.Limits.{most_lifts};
ghost use Rattle.omega.specs.Giving.{IsOneRefused, IsVerdictOutcome};

use crate::giving::give_verdict;
use crate::text::Text;
use crate::text_outcome::TextOutcome;
use omega_answers_synth::write_winner;
use std::alloc::Global;

/// Decides whether the automaton of `text` is realizable where the system controls the propositions that its item
/// `controllable-AP:` lists. Writes 1 into `verdict` and gives the canonical text of a controller, or writes 0 and
/// gives that of a counter-strategy.
///
/// The number of the outcome is 0, or that of the [Refusal::Text] or [Refusal::Automaton] of the text,
/// [TaskFault::Controllable], [Refusal::Memory], or of a refusal of `realize`. Unless it is 0, `verdict` and `out`
/// stay.
#[unsafe(no_mangle)]
pub extern "C" fn omega_realize(
    alloc: Global,
    text: &[u8],
    verdict: &mut u32,
    out: &mut Text,
) -> TextOutcome
    ensures { IsVerdictOutcome
        (IsWinnerAnswer text.now) (IsOneRefused (IsRealizeRefusal text.now most_lifts))
        result verdict.old verdict.new out.old out.new }
{
    match write_winner(alloc, text) {
        Ok((exit, output)) => give_verdict(alloc, exit, output, verdict, out),
        Err(refusal) => TextOutcome::of_one(refusal),
    }
}
