/// Which sets the edges of a union are in. Automata with one acceptance formula over as many sets share their sets.
/// Otherwise each has its own, and a guard if it needs one: a further set that all of its edges are in.
#[derive(Clone, Copy, Debug, PartialEq, Eq)]
pub struct Sharing {
    /// Whether both automata use the same sets.
    pub shared: bool,
    /// How many sets are numbered before those of the second automaton.
    pub before: u32,
    /// The guard of the first automaton, if it has one.
    pub first: Option<u32>,
    /// The guard of the second automaton, if it has one.
    pub second: Option<u32>,
    /// How many sets there are.
    pub sets: u32,
}
