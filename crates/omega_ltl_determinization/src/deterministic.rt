ghost use Rattle.std.specs.Prelude.{◌≡◌, ◌+◌, ◌-◌, ◌^◌, length, min};
ghost use Rattle.omega_ltl_determinization.specs.Reading.{colour_at, first_edge, letters_at, target_at};
ghost use Rattle.omega_ltl_determinization.specs.Reading.{width_of};

use omega_graph_search::{NONE, number_of};
use omega_text::Seq;
use std::alloc::AllocError;
use std::ops::Range;

/// An edge of a deterministic automaton.
#[derive(Clone, Copy, Debug, PartialEq, Eq)]
pub struct DeterministicEdge {
    /// The number of the state that it leads to.
    pub target: u32,
    /// Its colour. A word is accepted if the least colour that its run takes again and again is even.
    pub colour: u32,
}

/// A deterministic transition-based parity automaton, as flat arrays. A word is accepted if the least colour that
/// recurs on its run is even; at a letter of no edge of the state that it is in, it is refused.
#[derive(Debug)]
pub struct DeterministicAutomaton {
    /// How many names the letters give truth values to.
    pub names: u32,
    /// The state in which runs begin.
    pub start: u32,
    /// For each state the index after its last edge.
    pub ends: Seq<u32>,
    /// The edges of all states, state by state. The letters of the edges of one state are apart.
    pub edges: Seq<DeterministicEdge>,
    /// The tables of the letters of each edge, side by side.
    pub letters: Seq<u64>,
}

impl Drop for DeterministicAutomaton {
    fn drop(self) {
        let DeterministicAutomaton {
            names: _,
            start: _,
            ends: _,
            edges: _,
            letters: _,
        } = self;
    }
}

impl DeterministicAutomaton {
    /// Returns how many states there are, at most [`NONE`].
    pub fn state_count(&self) -> u32
        ensures { result ≡ min (length self.now.ends) (2 ^ 32 - 1) }
    {
        number_of(self.ends.len())
    }

    /// Returns the index of the first edge of a state, or a number that is no less than that of the last past the last
    /// state.
    fn first_edge(&self, state: u32) -> u32
        ensures { result ≡ first_edge self.now state }
    {
        if state == 0 {
            return 0;
        }
        match self.ends.as_slice().get((state - 1) as usize) {
            Some(end) => *end,
            None => number_of(self.edges.len()),
        }
    }

    /// Returns the indices of the edges of a state, none past the last state.
    pub fn places_of(&self, state: u32) -> Range<u32>
        ensures first { result.start ≡ first_edge self.now state }
        ensures end { result.end ≡ first_edge self.now (min (state + 1) (2 ^ 32 - 1)) }
    {
        self.first_edge(state)..self.first_edge(state.saturating_add(1))
    }

    /// Returns the target of the edge at an index, or [`NONE`] past the last.
    #[inline(always)]
    pub fn target(&self, edge: u32) -> u32
        ensures { result ≡ target_at self.now.edges edge }
    {
        match self.edges.as_slice().get(edge as usize) {
            Some(edge) => edge.target,
            None => NONE,
        }
    }

    /// Returns the colour of the edge at an index, or [`NONE`] past the last.
    #[inline(always)]
    pub fn colour(&self, edge: u32) -> u32
        ensures { result ≡ colour_at self.now.edges edge }
    {
        match self.edges.as_slice().get(edge as usize) {
            Some(edge) => edge.colour,
            None => NONE,
        }
    }

    /// Returns how many words the table of the letters of an edge has.
    fn width(&self) -> usize
        ensures { result ≡ width_of self.now }
    {
        if self.edges.len() == 0 {
            return 0;
        }
        self.letters.len() / self.edges.len()
    }

    /// Returns the table of the letters of the edge at an index, which is empty past the last edge.
    pub fn letters_of(&self, edge: u32) -> &[u64]
        ensures { result.now ≡ letters_at self.now edge }
    {
        let width = self.width();
        let first = (edge as usize).saturating_mul(width);
        match self
            .letters
            .as_slice()
            .get(first..first.saturating_add(width))
        {
            Some(letters) => letters,
            None => &[],
        }
    }

    /// Whether a letter of `all` is in no edge of a state. `left` is overwritten.
    pub(crate) fn lacks_letters(
        &self,
        state: u32,
        all: &[u64],
        left: &mut Vec<u64>,
    ) -> Result<bool, AllocError> {
        left.clear();
        left.extend_from_slice(all)?;
        for edge in self.places_of(state) {
            for (word, taken) in left.iter_mut().zip(self.letters_of(edge)) {
                *word &= !*taken;
            }
        }
        Ok(left.iter().any(|word| *word != 0))
    }
}
