ghost use Rattle.omega_answers_automaton.specs.Meet.{IsMeetAnswer, IsMeetRefused};
ghost use Rattle.omega.specs.Giving.{IsTextOutcome};

use crate::giving::give;
use crate::text::Text;
use crate::text_outcome::TextOutcome;
use omega_answers_automaton::meet_texts;
use std::alloc::Global;

/// Gives the canonical text of the product of the automaton of `text` and that of `other`, in this order.
///
/// The number of the outcome is 0, or that of the [Refusal::Text] or [Refusal::Automaton] of one of the texts,
/// [TaskFault::UniversalBranch], [TaskFault::TooManyPropositions], [TaskFault::TooLarge] or [Refusal::Memory]. Unless
/// it is 0, `out` stays.
#[unsafe(no_mangle)]
pub extern "C" fn omega_meet(
    alloc: Global,
    text: &[u8],
    other: &[u8],
    out: &mut Text,
) -> TextOutcome
    ensures { IsTextOutcome (IsMeetAnswer other.now text.now) (IsMeetRefused other.now text.now)
        result out.old out.new }
{
    match meet_texts(alloc, other, text) {
        Ok(output) => give(alloc, output, out),
        Err(refused) => TextOutcome::of(refused),
    }
}
