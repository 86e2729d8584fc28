//! Whether an edge answers an environment's letter.

ghost use Rattle.std.specs.Prelude.{◌↔◌, IfErr, IfOk, IsTrue};
ghost use Rattle.omega_synth_controllers.specs.Controllers.{Answers};
ghost use Rattle.omega_lang_runs.specs.Places.{EdgeStandsAt};
ghost use Rattle.omega_synth_game.specs.Answering.{IsAnswerRefusal};
ghost use Rattle.omega_synth_game.specs.Letters.{holds_in};

use crate::answering::can_answer;
use omega_hoa_automaton::{Automaton, Refusal};
use omega_hoa_edges::{edge_label, judge_size};
use omega_lang_runs::{EdgePlace, edges_are_taken_where_true};
use std::alloc::Global;

/// Whether the edge with this `number`, which is at `place`, answers the environment's `letter`, which lists the
/// propositions that hold: it can be taken at some letter that agrees on all propositions but the `controlled` ones.
///
/// Fails with [TaskFault::TooLarge] if the label has over `MOST_SIZE` atoms and operators, and with
/// [TaskFault::TooManyPropositions] if what is left of the label is not decided.
pub(crate) fn answers_letter(
    alloc: Global,
    automaton: &Automaton,
    place: EdgePlace,
    _number: u32,
    controlled: &[u32],
    letter: &[u32],
) -> Result<bool, Refusal>
    requires { EdgeStandsAt automaton.now _number place }
    ensures judged { IfOk result
        (λ answers. IsTrue answers ↔ Answers automaton.now controlled.now _number (holds_in letter.now)) }
    ensures refused { IfErr result (IsAnswerRefusal automaton.now controlled.now letter.now _number) }
{
    edges_are_taken_where_true();
    let count = automaton.propositions().len();
    let state = &automaton.defined()[place.state];
    let edge = state.edges.edge(place.index);
    let label = edge_label(alloc, count, state, &edge, place.index)?;
    judge_size(label.get())?;
    can_answer(alloc, label.get(), controlled, letter)
}
