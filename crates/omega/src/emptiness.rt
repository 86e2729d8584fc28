ghost use Rattle.std.specs.Prelude.{false};
ghost use Rattle.omega_answers_empty.specs.empty.Answer.{IsEmptySearchAnswer, IsEmptySearchRefusal};
ghost use Rattle.omega.specs.Giving.{IsOneRefused, IsTextOutcome};
ghost use Rattle.omega.specs.Solving.{asks};

use crate::giving::give;
use crate::solving::asks;
use crate::text::Text;
use crate::text_outcome::TextOutcome;
use omega_answers_empty::{Lines, search_emptiness};
use std::alloc::Global;

/// Gives `empty` if the automaton of `text` accepts no word, and else the lines of an accepting lasso. With `word` not
/// 0 the line of its word follows.
///
/// The number of the outcome is 0, or that of the [Refusal::Text] or [Refusal::Automaton] of the text,
/// [TaskFault::UniversalBranch], [TaskFault::TooManyPropositions] or [Refusal::Memory]. Unless it is 0, `out` stays.
#[unsafe(no_mangle)]
pub extern "C" fn omega_empty(alloc: Global, text: &[u8], word: u8, out: &mut Text) -> TextOutcome
    ensures { IsTextOutcome (IsEmptySearchAnswer text.now (record { word = asks word; run = false }))
        (IsOneRefused (IsEmptySearchRefusal text.now)) result out.old out.new }
{
    let lines = Lines {
        word: asks(word),
        run: false,
    };
    match search_emptiness(alloc, text, lines, false) {
        Ok((_exit, output)) => give(alloc, output, out),
        Err(refusal) => TextOutcome::of_one(refusal),
    }
}
