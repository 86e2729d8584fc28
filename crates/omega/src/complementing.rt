ghost use Rattle.omega_answers_automaton.specs.Complement.{IsComplementAnswer, IsComplementRefusal};
ghost use Rattle.omega.specs.Giving.{IsOneRefused, IsTextOutcome};

use crate::giving::give;
use crate::text::Text;
use crate::text_outcome::TextOutcome;
use omega_answers_automaton::complement_text;
use std::alloc::Global;

/// Gives the canonical text of the complement of the automaton of `text`.
///
/// The number of the outcome is 0, or that of the [Refusal::Text] or [Refusal::Automaton] of the text,
/// [TaskFault::UniversalBranch], [TaskFault::TooManyPropositions], [TaskFault::TooLarge],
/// [TaskFault::NotDeterministic] or [Refusal::Memory]. Unless it is 0, `out` stays.
#[unsafe(no_mangle)]
pub extern "C" fn omega_complement(alloc: Global, text: &[u8], out: &mut Text) -> TextOutcome
    ensures { IsTextOutcome (IsComplementAnswer text.now)
        (IsOneRefused (IsComplementRefusal text.now)) result out.old out.new }
{
    match complement_text(alloc, text) {
        Ok(output) => give(alloc, output, out),
        Err(refusal) => TextOutcome::of_one(refusal),
    }
}
