ghost use Rattle.std.specs.Prelude.{◌≡◌, ◌≤◌, ◌<◌, ◌*◌, ◌+◌, ◌↔◌, IsTrue, MatchOption, IfSome};
ghost use Rattle.omega_hoa_expression.specs.Limits.{most_buchi_sets};
ghost use Rattle.omega_game_values.specs.Limits.{most_nodes};
ghost use Rattle.omega_empty.specs.Counters.{counters};
ghost use Rattle.omega_hoa_automaton.specs.AcceptanceKind.{HasKind};
ghost use Rattle.omega_empty.specs.EmptinessGame.{span};
ghost use Rattle.omega_empty.specs.Refusing.{IsUndecided, NeedsCounters};

use omega_game_values::MOST_NODES;
use omega_hoa_acceptance::{AccKind, acceptance_kind};
use omega_hoa_automaton::Automaton;

/// Returns the acceptance kind of `automaton`, or none if its emptiness is not decided. Takes no memory.
pub(crate) fn kind_of(automaton: &Automaton) -> Option<AccKind>
    ensures { MatchOption result (IsUndecided automaton.now) (HasKind automaton.now) }
{
    match automaton.acc_name() {
        None => None,
        Some(name) => {
            match acceptance_kind(name, automaton.set_count(), automaton.acceptance()) {
                Ok(kind) => Some(kind),
                Err(_) => None,
            }
        }
    }
}

/// Returns the number of counters that `kind` needs.
pub(crate) fn counters_of(kind: AccKind) -> u32
    ensures { result ≡ counters kind }
{
    match kind {
        AccKind::Parity(_) => 1,
        AccKind::GenBuchi(sets) => sets,
    }
}

/// Whether a game with this number of `counters` has no more identifiers than a game may have nodes.
pub(crate) fn fits(automaton: &Automaton, counters: u32) -> bool
    requires { counters ≤ most_buchi_sets }
    ensures { IsTrue result ↔ (counters * span automaton.now + 1 ≤ most_nodes) }
{
    let span = u64::from(automaton.state_count()) + u64::from(automaton.edge_count());
    u64::from(counters) * span < MOST_NODES as u64
}
