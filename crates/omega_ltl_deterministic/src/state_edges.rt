use crate::words::name_word;
use indexmap::IndexSet;
use omega_graph_search::number_of;
use omega_ltl_determinization::{LetterSets, NondeterministicAutomaton};
use omega_ltl_shapes::Cube;
use std::alloc::{AllocError, Global};

/// Where an edge leads to, and the sets that it is in.
#[derive(Clone, Copy, Debug, PartialEq, Eq, Hash)]
struct Step {
    target: u32,
    marks: u64,
}

/// The edges of a state that is being made. Edges with one target and the same marks are joined.
#[derive(Drop)]
pub(crate) struct StateEdges {
    names: u32,
    width: usize,
    steps: IndexSet<Step>,
    // By step the table of its letters.
    letters: LetterSets,
    words: Vec<u64>,
}

impl StateEdges {
    /// Returns no edges, over letters that give truth values to `names` names and whose tables have `width` words.
    pub(crate) fn new(alloc: Global, names: u32, width: usize) -> StateEdges {
        StateEdges {
            names,
            width,
            steps: IndexSet::new(alloc),
            letters: LetterSets::new(alloc, width),
            words: Vec::new(alloc),
        }
    }

    /// Adds an edge that can be taken at the letters of a cube.
    pub(crate) fn add(&mut self, cube: Cube, target: u32, marks: u64) -> Result<(), AllocError> {
        self.write_letters(cube)?;
        let (place, is_new) = self.steps.insert_full(Step { target, marks })?;
        if is_new {
            self.letters.push(self.words.as_slice())
        } else {
            self.letters.unite(number_of(place), self.words.as_slice());
            Ok(())
        }
    }

    /// Writes the table of the letters of a cube.
    fn write_letters(&mut self, cube: Cube) -> Result<(), AllocError> {
        self.words.clear();
        for index in 0..self.width {
            let mut word = u64::MAX;
            for name in 0..self.names {
                if cube.has(name, false) {
                    word &= name_word(name, index);
                }
                if cube.has(name, true) {
                    word &= !name_word(name, index);
                }
            }
            self.words.push(word)?;
        }
        Ok(())
    }

    /// Moves the edges to the state of an automaton whose end comes next, and ends it.
    pub(crate) fn end(
        &mut self,
        alloc: Global,
        automaton: &mut NondeterministicAutomaton,
    ) -> Result<(), AllocError> {
        for (place, step) in self.steps.iter().enumerate() {
            let letters = self.letters.at(number_of(place));
            automaton.add_edge(alloc, step.target, step.marks, letters)?;
        }
        self.steps.clear();
        self.letters.clear();
        automaton.end_state()
    }
}
