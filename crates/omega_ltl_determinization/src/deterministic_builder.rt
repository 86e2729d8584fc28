ghost use Rattle.std.specs.Prelude.{◌≡◌, ◌≤◌, IfErr, IfOk, IsTrue};
ghost use Rattle.omega_ltl_determinization.specs.Limits.{most_names};
ghost use Rattle.omega_ltl_determinization.specs.Deterministic.{IsFlat, IsWellFormed};
ghost use Rattle.omega_ltl_determinization.specs.Refusing.{IsLarge};

use crate::deterministic::{DeterministicAutomaton, DeterministicEdge};
use crate::letter_sets::LetterSets;
use crate::letters::word_count;
use crate::limits::{MOST_NAMES, MOST_STATES, MOST_WORDS};
use indexmap::IndexSet;
use omega_graph_search::number_of;
use omega_text::{Refusal, Seq, TaskFault};
use std::alloc::Global;

/// A deterministic automaton that is being made, state by state: first the edges of a state, then its end.
pub struct DeterministicBuilder {
    ends: Vec<u32>,
    edges: Vec<DeterministicEdge>,
    letters: LetterSets,
    // The targets and colours of the edges of the state that is being made, in the order of the edges.
    joined: IndexSet<u64>,
}

impl Drop for DeterministicBuilder {
    fn drop(self) {
        let DeterministicBuilder {
            ends: _,
            edges: _,
            letters: _,
            joined: _,
        } = self;
    }
}

impl DeterministicBuilder {
    /// Returns an automaton without states, over letters that give truth values to `names` names.
    pub fn new(alloc: Global, names: u32) -> DeterministicBuilder
        requires { names ≤ most_names }
    {
        DeterministicBuilder {
            ends: Vec::new(alloc),
            edges: Vec::new(alloc),
            letters: LetterSets::new(alloc, word_count(names)),
            joined: IndexSet::new(alloc),
        }
    }

    /// Returns how many states have ended.
    pub fn state_count(&self) -> u32 {
        number_of(self.ends.len())
    }

    /// Lets the state whose end comes next go to `target` at `letters`, by an edge of `colour`. Edges with one target
    /// and one colour are joined. Fails with [`TaskFault::TooLarge`] if the letters of all edges take over
    /// [`MOST_WORDS`] words.
    pub fn add_edge(&mut self, target: u32, colour: u32, letters: &[u64]) -> Result<(), Refusal>
        ensures err { IfErr result IsLarge }
    {
        let key = (target as u64) << 32 | colour as u64;
        let (place, is_new) = self.joined.insert_full(key)?;
        if !is_new {
            let first = self.ends.last().copied().unwrap_or(0);
            self.letters
                .unite(first.wrapping_add(number_of(place)), letters);
            return Ok(());
        }
        if self.letters.word_length() >= MOST_WORDS {
            return Err(Refusal::Task(TaskFault::TooLarge));
        }
        self.edges.push(DeterministicEdge { target, colour })?;
        self.letters.push(letters)?;
        Ok(())
    }

    /// Ends a state. The states are numbered from 0. Fails with [`TaskFault::TooLarge`] if there are over
    /// [`MOST_STATES`].
    pub fn end_state(&mut self) -> Result<(), Refusal>
        ensures err { IfErr result IsLarge }
    {
        if self.ends.len() >= MOST_STATES {
            return Err(Refusal::Task(TaskFault::TooLarge));
        }
        self.joined.clear();
        self.ends.push(number_of(self.edges.len()))?;
        Ok(())
    }

    /// Returns the automaton with this start, over letters that give truth values to `names` names, as when it was
    /// begun. Fails with [`TaskFault::TooLarge`] if it has no state, or if a number is no state: no search comes to
    /// that.
    pub fn finish(self, names: u32, start: u32) -> Result<DeterministicAutomaton, Refusal>
        ensures automaton { IfOk result IsWellFormed }
        ensures names { IfOk result (λ automaton. automaton.names ≡ names) }
        ensures err { IfErr result IsLarge }
    {
        let DeterministicBuilder {
            ends,
            edges,
            letters,
            joined: _,
        } = self;
        let words = letters.into_words();
        if !is_flat(
            names,
            start,
            ends.as_slice(),
            edges.as_slice(),
            words.as_slice(),
        ) {
            return Err(Refusal::Task(TaskFault::TooLarge));
        }
        Ok(DeterministicAutomaton {
            names,
            start,
            ends: Seq::from_vec(ends),
            edges: Seq::from_vec(edges),
            letters: Seq::from_vec(words),
        })
    }
}

/// Whether these arrays are an automaton within the limits.
fn is_flat(names: u32, start: u32, ends: &[u32], edges: &[DeterministicEdge], words: &[u64]) -> bool
    ensures { IsTrue result → IsFlat names start ends.now edges.now words.now }
{
    names <= MOST_NAMES
        && (start as usize) < ends.len()
        && ends.len() <= MOST_STATES
        && words.len() <= MOST_WORDS
        && word_count(names).checked_mul(edges.len()) == Some(words.len())
        && ends.iter().all(|end| *end as usize <= edges.len())
        && edges.iter().all(|edge| (edge.target as usize) < ends.len())
}
