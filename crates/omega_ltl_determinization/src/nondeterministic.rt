ghost use Rattle.std.specs.Prelude.{◌≡◌, ◌≤◌, IfErr, IfOk, OnOk};
ghost use Rattle.omega_ltl_determinization.specs.Limits.{most_names, most_sets};
ghost use Rattle.omega_ltl_determinization.specs.Refusing.{IsLarge};

use crate::letters::{all_letters, word_count};
use crate::limits::{MOST_NAMES, MOST_SETS};
use indexmap::IndexSet;
use omega_graph_search::number_of;
use omega_text::{Refusal, TaskFault};
use std::alloc::{AllocError, Global};

/// An edge of a nondeterministic automaton.
#[derive(Clone, Copy, Debug, PartialEq, Eq)]
pub(crate) struct NondeterministicEdge {
    /// The number of the state that it leads to.
    pub target: u32,
    /// The number of its set of letters among the labels of the automaton.
    pub label: u32,
    /// The sets that the edge is in: a bit for each.
    pub marks: u64,
}

/// A nondeterministic transition-based generalized Büchi automaton, as flat arrays. It accepts a word if some run on it
/// from a start takes edges of each set again and again.
///
/// It is made state by state: first the edges of a state, then its end. The numbers in it may be any: a start or a
/// target that is no state has no edges.
pub struct NondeterministicAutomaton {
    pub(crate) names: u32,
    pub(crate) sets: u32,
    all: Vec<u64>,
    starts: Vec<u32>,
    // By state the index after its last edge.
    ends: Vec<u32>,
    edges: Vec<NondeterministicEdge>,
    labels: IndexSet<Vec<u64>>,
    ghost few_names: { names ≤ 16 },
    ghost few_sets: { sets ≤ 64 },
}

impl Drop for NondeterministicAutomaton {
    fn drop(self) {
        let NondeterministicAutomaton {
            names: _,
            sets: _,
            all: _,
            starts: _,
            ends: _,
            edges: _,
            labels: _,
        } = self;
    }
}

impl NondeterministicAutomaton {
    /// Returns an automaton without states, over letters that give truth values to `names` names. Fails with
    /// [`TaskFault::TooLarge`] if there are over [`MOST_NAMES`] names or over [`MOST_SETS`] sets.
    pub fn new(alloc: Global, names: u32, sets: u32) -> Result<NondeterministicAutomaton, Refusal>
        ensures names { IfOk result (λ automaton. automaton.names ≡ names) }
        ensures few_names { OnOk result (names ≤ most_names) }
        ensures few_sets { OnOk result (sets ≤ most_sets) }
        ensures err { IfErr result IsLarge }
    {
        if names > MOST_NAMES || sets > MOST_SETS {
            return Err(Refusal::Task(TaskFault::TooLarge));
        }
        let all = all_letters(alloc, names)?;
        Ok(NondeterministicAutomaton {
            names,
            sets,
            all,
            starts: Vec::new(alloc),
            ends: Vec::new(alloc),
            edges: Vec::new(alloc),
            labels: IndexSet::new(alloc),
        })
    }

    /// Adds a state from which runs begin.
    pub fn add_start(&mut self, state: u32) -> Result<(), AllocError> {
        self.starts.push(state)?;
        Ok(())
    }

    /// Adds an edge to the state whose end comes next. `letters` is the table of its letters. Words that it lacks are
    /// empty, and bits of no letter are left out.
    pub fn add_edge(
        &mut self,
        alloc: Global,
        target: u32,
        marks: u64,
        letters: &[u64],
    ) -> Result<(), AllocError> {
        let mut table = Vec::with_capacity(alloc, self.all.len())?;
        for (index, every) in self.all.iter().enumerate() {
            let word = letters.get(index).copied().unwrap_or(0);
            table.push(word & *every)?;
        }
        let (label, _new) = self.labels.insert_full(table)?;
        self.edges.push(NondeterministicEdge {
            target,
            label: number_of(label),
            marks,
        })?;
        Ok(())
    }

    /// Ends a state: the edges that were added since the last end are its edges. The states are numbered from 0.
    pub fn end_state(&mut self) -> Result<(), AllocError> {
        self.ends.push(number_of(self.edges.len()))?;
        Ok(())
    }

    /// Returns how many names the letters give truth values to.
    pub(crate) fn names(&self) -> u32
        ensures names { result ≡ self.now.names }
        ensures few { result ≤ most_names }
    {
        self.names
    }

    /// Returns how many sets of edges there are.
    pub(crate) fn sets(&self) -> u32
        ensures { result ≤ most_sets }
    {
        self.sets
    }

    /// Returns the states from which runs begin.
    pub(crate) fn starts(&self) -> &[u32] {
        self.starts.as_slice()
    }

    /// Returns how many states there are.
    pub(crate) fn state_count(&self) -> u32 {
        number_of(self.ends.len())
    }

    /// Returns the edges of a state, or none past the last state.
    pub(crate) fn edges_of(&self, state: u32) -> &[NondeterministicEdge] {
        let first = match state {
            0 => 0,
            _ => self.ends.get((state - 1) as usize).copied().unwrap_or(0),
        };
        let end = self.ends.get(state as usize).copied().unwrap_or(0);
        match self.edges.get(first as usize..end as usize) {
            Some(edges) => edges,
            None => &[],
        }
    }

    /// Returns how many different sets of letters the edges have.
    pub(crate) fn label_count(&self) -> u32 {
        number_of(self.labels.len())
    }

    /// Returns the table of the letters of a label, which is empty past the last label.
    pub(crate) fn label(&self, label: u32) -> &[u64] {
        match self.labels.get_index(label as usize) {
            Some(letters) => letters.as_slice(),
            None => &[],
        }
    }

    /// Returns how many words the table of a set of letters has.
    pub(crate) fn width(&self) -> usize {
        word_count(self.names)
    }

    /// Returns the table of all letters.
    pub(crate) fn all(&self) -> &[u64] {
        self.all.as_slice()
    }
}
