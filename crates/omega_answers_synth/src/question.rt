ghost use Rattle.std.specs.Prelude.{IfErr, IfOk};
ghost use Rattle.omega_text.specs.Cases.{or_memory};
ghost use Rattle.omega_answers_synth.specs.private.Question.{IsQuestion, IsQuestionRefusal};

use omega_hoa::read_one;
use omega_hoa_automaton::{Automaton, Refusal};
use omega_synth_controllers::stated_propositions;
use omega_text::Numbers;
use std::alloc::Global;

/// An automaton, and the numbers of the propositions that its item `controllable-AP:` lists.
#[derive(Drop)]
pub(crate) struct Question {
    pub(crate) automaton: Automaton,
    pub(crate) controlled: Numbers,
}

/// Reads the automaton of `text`, and then its item.
pub(crate) fn question_in(alloc: Global, text: &[u8]) -> Result<Question, Refusal>
    ensures question { IfOk result (IsQuestion text.now) }
    ensures refused { IfErr result (or_memory (IsQuestionRefusal text.now)) }
{
    let automaton = read_one(alloc, text)?;
    let controlled = stated_propositions(alloc, &automaton)?;
    Ok(Question {
        automaton,
        controlled,
    })
}
