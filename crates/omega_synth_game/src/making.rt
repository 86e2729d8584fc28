//! The rounds of an automaton.

ghost use Rattle.std.specs.Prelude.{◌≡◌, false, IfErr, IfOk};
ghost use Rattle.omega_hoa_automaton.specs.AcceptanceKind.{HasKind};
ghost use Rattle.omega_hoa_automaton.specs.Branching.{has_universal_branching};
ghost use Rattle.omega_hoa_acceptance.specs.declared.kind.AccKind.TheVariants as kinds;
ghost use Rattle.omega_synth_rounds.specs.Rounds.{IsRounds};
ghost use Rattle.omega_synth_game.specs.Making.{AreAskedByState, IsRoundsOfRefusal};
ghost use Rattle.omega_synth_game.specs.RoundsOf.{AreRoundsOf};

use crate::leaving::leaving_edges;
use crate::round_edges::round_edges;
use crate::states::states_asked;
use omega_hoa_acceptance::ParityKind;
use omega_hoa_automaton::{Automaton, Refusal};
use omega_lang_runs::edge_places;
use omega_synth_rounds::Rounds;
use omega_text::{Numbers, Seq};
use std::alloc::Global;

/// Rounds with a letter for each question.
#[derive(Debug, Drop)]
pub struct LetteredRounds {
    /// The rounds.
    pub rounds: Rounds,
    /// For each question its letter: the propositions that hold.
    pub letters: Seq<Numbers>,
}

/// Returns the rounds of `automaton`, whose parity kind is `kind`, where the system controls the propositions
/// `controlled`: in each state a question for each class of letters that the same of its edges answer. The questions of
/// a state come after those of the state before.
///
/// Fails with [GameFault::TooManyNodes] if there are more questions than a game may have nodes, and as `questions_of`
/// does.
pub fn rounds_of(
    alloc: Global,
    automaton: &Automaton,
    kind: ParityKind,
    controlled: &[u32],
) -> Result<LetteredRounds, Refusal>
    requires plain { has_universal_branching automaton.now ≡ false }
    requires kind { HasKind automaton.now (kinds.Parity kind) }
    ensures rounds_of { IfOk result
        (λ made. AreRoundsOf automaton.now controlled.now kind made.rounds made.letters) }
    ensures rounds { IfOk result (λ made. IsRounds made.rounds) }
    ensures by_state { IfOk result (λ made. AreAskedByState automaton.now controlled.now made.rounds) }
    ensures refused { IfErr result (IsRoundsOfRefusal automaton.now controlled.now) }
{
    automaton.keeps_limits();
    let places = edge_places(alloc, automaton)?;
    let edges = round_edges(alloc, automaton, kind, places.as_slice())?;
    let count = automaton.state_count();
    let leaving = leaving_edges(alloc, count, edges.as_slice())?;
    let asked = states_asked(
        alloc,
        automaton,
        places.as_slice(),
        leaving.as_slice(),
        controlled,
    )?;
    Ok(LetteredRounds {
        rounds: Rounds {
            states: Seq::from_vec(asked.ranges),
            edges: Seq::from_vec(edges),
            questions: Seq::from_vec(asked.answers),
        },
        letters: Seq::from_vec(asked.letters),
    })
}
