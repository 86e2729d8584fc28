//! The states of an automaton by classes: from two states of a class the same words are accepted, since their edges
//! lead at the same letters, with the same colours, to states of the same classes.
use crate::deterministic::DeterministicAutomaton;
use crate::fates::{Fate, Fates};
use indexmap::IndexSet;
use omega_graph_search::{NONE, NumberTable, number_of};
use std::alloc::{AllocError, Global};

/// The class of each state.
#[derive(Drop)]
pub(crate) struct StateClasses {
    pub of: NumberTable,
    pub count: u32,
}

/// An edge of a state: where it leads to, as class and colour in one word, and the number of its letters.
#[derive(Clone, Copy)]
struct Part {
    key: u64,
    letters: u32,
}

/// What is being compared.
#[derive(Drop)]
struct Comparison<'a> {
    automaton: &'a DeterministicAutomaton,
    colours: &'a NumberTable,
    fates: &'a Fates,
    // The tables of letters that edges have, and by edge the number of its table.
    tables: IndexSet<Vec<u64>>,
    letters: NumberTable,
    parts: Vec<Part>,
    // The letters of some parts together.
    words: Vec<u64>,
}

/// Returns classes of the states of an automaton with these colours and fates, by refinement (Moore): states are apart
/// as soon as their edges are. All states from which each word is accepted are of one class.
pub(crate) fn state_classes(
    alloc: Global,
    automaton: &DeterministicAutomaton,
    colours: &NumberTable,
    fates: &Fates,
) -> Result<StateClasses, AllocError> {
    let mut comparison = Comparison {
        automaton,
        colours,
        fates,
        tables: IndexSet::new(alloc),
        letters: NumberTable::filled(alloc, automaton.edges.len(), NONE)?,
        parts: Vec::new(alloc),
        words: Vec::new(alloc),
    };
    comparison.number_letters(alloc)?;
    let mut classes = StateClasses {
        of: NumberTable::filled(alloc, automaton.ends.len(), 0)?,
        count: 0,
    };
    // Each round but the last splits a class.
    for _ in 0..=automaton.state_count() {
        let next = comparison.refined(alloc, &classes)?;
        let is_last = next.count == classes.count;
        classes = next;
        if is_last {
            break;
        }
    }
    Ok(classes)
}

impl<'a> Comparison<'a> {
    /// Numbers the tables of letters of all edges.
    fn number_letters(&mut self, alloc: Global) -> Result<(), AllocError> {
        for edge in 0..number_of(self.automaton.edges.len()) {
            let number = number_in(alloc, self.automaton.letters_of(edge), &mut self.tables)?;
            self.letters.put(edge, number);
        }
        Ok(())
    }

    /// Returns the classes of the states that are in one class and whose edges are the same.
    fn refined(
        &mut self,
        alloc: Global,
        classes: &StateClasses,
    ) -> Result<StateClasses, AllocError> {
        let mut found = IndexSet::new(alloc);
        let mut of = NumberTable::filled(alloc, self.automaton.ends.len(), 0)?;
        for state in 0..self.automaton.state_count() {
            let signature = self.signature(alloc, state, classes)?;
            let (number, _new) = found.insert_full(signature)?;
            of.put(state, number_of(number));
        }
        let count = number_of(found.len());
        Ok(StateClasses { of, count })
    }

    /// Returns what the states of a class have in common: the fate alone unless it is open, or else the class before,
    /// and for each class and colour that an edge leads to the number of the letters.
    fn signature(
        &mut self,
        alloc: Global,
        state: u32,
        classes: &StateClasses,
    ) -> Result<Vec<u32>, AllocError> {
        let mut signature = Vec::new(alloc);
        match self.fates.of(state) {
            Fate::Empty => return Ok(signature),
            Fate::Universal => {
                signature.push(NONE)?;
                return Ok(signature);
            }
            Fate::Open => signature.push(classes.of.at(state))?,
        }
        self.find_parts(state, classes)?;
        self.join_parts(alloc)?;
        for part in &self.parts {
            signature.push((part.key >> 32) as u32)?;
            signature.push((part.key & 0xffff_ffff) as u32)?;
            signature.push(part.letters)?;
        }
        Ok(signature)
    }

    /// Finds the edges of a state that lead on, in the order of classes and colours.
    fn find_parts(&mut self, state: u32, classes: &StateClasses) -> Result<(), AllocError> {
        self.parts.clear();
        for edge in self.automaton.places_of(state) {
            let target = self.automaton.target(edge);
            if self.fates.of(target) == Fate::Empty {
                continue;
            }
            // The colours of edges to where each word is accepted do not matter.
            let colour = match self.fates.of(target) {
                Fate::Universal => 0,
                _ => self.colours.at(edge),
            };
            self.parts.push(Part {
                key: (classes.of.at(target) as u64) << 32 | colour as u64,
                letters: self.letters.at(edge),
            })?;
        }
        self.parts.sort_by_key(|part| part.key)
    }

    /// Joins the edges that lead to one class with one colour.
    fn join_parts(&mut self, alloc: Global) -> Result<(), AllocError> {
        let mut joined = Vec::with_capacity(alloc, self.parts.len())?;
        let mut first = 0;
        for _ in 0..self.parts.len() {
            let part = match self.parts.get(first) {
                Some(part) => *part,
                None => break,
            };
            let end = self.end_of_run(first, part.key);
            let letters = if end <= first.saturating_add(1) {
                part.letters
            } else {
                self.letters_of_run(alloc, first, end)?
            };
            joined.push(Part { letters, ..part })?;
            first = end;
        }
        self.parts = joined;
        Ok(())
    }

    /// Returns the index after the last part that has a key, among those that follow each other from an index on.
    fn end_of_run(&self, first: usize, key: u64) -> usize {
        for index in first..self.parts.len() {
            if self.parts[index].key != key {
                return index;
            }
        }
        self.parts.len()
    }

    /// Returns the number of the letters of the parts from one index to another together.
    fn letters_of_run(
        &mut self,
        alloc: Global,
        first: usize,
        end: usize,
    ) -> Result<u32, AllocError> {
        self.words.clear();
        if let Some(parts) = self.parts.get(first..end) {
            for part in parts {
                if let Some(table) = self.tables.get_index(part.letters as usize) {
                    unite(&mut self.words, table.as_slice())?;
                }
            }
        }
        number_in(alloc, self.words.as_slice(), &mut self.tables)
    }
}

/// Adds the letters of a table to a table that is as long, or empty.
fn unite(words: &mut Vec<u64>, table: &[u64]) -> Result<(), AllocError> {
    if words.is_empty() {
        return words.extend_from_slice(table);
    }
    for (word, more) in words.iter_mut().zip(table) {
        *word |= *more;
    }
    Ok(())
}

/// Returns the number of a table, which is added if it is not there.
fn number_in(
    alloc: Global,
    table: &[u64],
    tables: &mut IndexSet<Vec<u64>>,
) -> Result<u32, AllocError> {
    if let Some(number) = tables.get_index_of(table) {
        return Ok(number_of(number));
    }
    let key = Vec::from_slice(alloc, table)?;
    let (number, _new) = tables.insert_full(key)?;
    Ok(number_of(number))
}
