ghost use Rattle.omega_hoa_automaton.specs.private.layout.Body.{IsFoundOfState, IsFoundOfStates};

use crate::judging::counts::Counts;
use crate::judging::edges::found_of_edges;
use crate::judging::implicit::is_power;
use crate::judging::propositions::label_beyond;
use crate::judging::sets::marks_beyond;
use omega_hoa_syntax::RawState;

/// The faults of a body's states that are found without memory.
#[derive(Clone, Copy)]
pub(crate) struct BodyFound {
    /// Whether a state is not below the count of states, or an edge lists one that is not, or none at all.
    pub state: bool,
    /// Whether a mark of a state or an edge is not below the count of sets.
    pub mark: bool,
    /// Whether a label mentions a proposition that is not below the count of propositions.
    pub proposition: bool,
    /// Whether a state mixes labels.
    pub mixed: bool,
    /// Whether a state without labels has edges, but not one for each valuation.
    pub miscounted: bool,
}

/// Finds the faults of the body. Each state and each edge is looked at once, since a body is mostly larger than the
/// processor's caches.
pub(crate) fn found_of_states(states: &[RawState], counts: Counts) -> BodyFound
    ensures { IsFoundOfStates counts states.now result }
{
    let mut found = BodyFound {
        state: false,
        mark: false,
        proposition: false,
        mixed: false,
        miscounted: false,
    };
    for state in states {
        let more = found_of_state(state, counts);
        found.state = found.state || more.state;
        found.mark = found.mark || more.mark;
        found.proposition = found.proposition || more.proposition;
        found.mixed = found.mixed || more.mixed;
        found.miscounted = found.miscounted || more.miscounted;
    }
    found
}

/// Finds the faults of a state and its edges.
fn found_of_state(state: &RawState, counts: Counts) -> BodyFound
    ensures { IsFoundOfState counts state.now result }
{
    let edges = found_of_edges(&state.edges, counts);
    let labelled = state.label.is_some();
    BodyFound {
        state: counts.states <= state.number || edges.target,
        mark: marks_beyond(state.marks.as_slice(), counts.sets) || edges.mark,
        proposition: label_beyond(state.label.as_ref(), counts.propositions) || edges.proposition,
        mixed: edges.labelled && (labelled || edges.unlabelled),
        miscounted: !labelled
            && !edges.labelled
            && 0 < state.edges.len()
            && !is_power(state.edges.len(), counts.propositions),
    }
}
