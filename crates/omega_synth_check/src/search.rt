use crate::leaving::Leaving;
use omega_hoa_automaton::Automaton;

/// A search of an automaton along the edges that leave its states.
#[derive(Clone, Copy)]
pub(crate) struct ControllerSearch<'a> {
    pub(crate) automaton: &'a Automaton,
    pub(crate) leaving: &'a Leaving,
    /// The propositions that the system controls, by number.
    pub(crate) controlled: &'a [u32],
}
