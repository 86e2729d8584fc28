use crate::tables::Tables;
use omega_hoa_automaton::Automaton;

/// Two automata and the edges of both as their product sees them.
#[derive(Clone, Copy)]
pub(crate) struct Operands<'a> {
    pub(crate) one: &'a Automaton,
    pub(crate) other: &'a Automaton,
    pub(crate) tables: &'a Tables,
}
