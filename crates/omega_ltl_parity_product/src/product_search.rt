ghost use Rattle.std.specs.Prelude.{◌≤◌, IfErr};
ghost use Rattle.omega_ltl_determinization.specs.Limits.{most_names};
ghost use Rattle.omega_ltl_determinization.specs.Refusing.{IsLarge};

use crate::combination::Combination;
use crate::leaf::Leaf;
use crate::leaf_table::LeafTable;
use crate::limits::MOST_COLOURS;
use crate::parts::Part;
use crate::residues::Residues;
use crate::splitting::parts_at;
use crate::truths::Truths;
use indexmap::IndexSet;
use omega_graph_search::number_of;
use omega_ltl_determinization::{DeterministicBuilder, MOST_STATES, all_letters};
use omega_text::{Refusal, TaskFault};
use std::alloc::{AllocError, Global};

/// Builds the states of a product that are reached. Fails with [`TaskFault::TooLarge`] past a limit.
pub(crate) fn explore(
    alloc: Global,
    names: u32,
    leaves: &[Leaf],
    nodes: &[Combination],
    builder: &mut DeterministicBuilder,
) -> Result<(), Refusal>
    requires { names ≤ most_names }
    ensures { IfErr result IsLarge }
{
    let tables = tables_of(alloc, leaves, names)?;
    let all = all_letters(alloc, names)?;
    let mut search = ProductSearch {
        tables: tables.as_slice(),
        all: all.as_slice(),
        found: IndexSet::new(alloc),
        residues: Residues::new(alloc),
        truths: Truths::new(alloc, nodes),
    };
    search.run(alloc, builder)
}

/// Returns the tables of the leaves. Fails with [`TaskFault::TooLarge`] if they have too many colours.
fn tables_of<'a>(
    alloc: Global,
    leaves: &'a [Leaf],
    names: u32,
) -> Result<Vec<LeafTable<'a>>, Refusal>
    requires { names ≤ most_names }
    ensures { IfErr result IsLarge }
{
    let mut tables = Vec::with_capacity(alloc, leaves.len())?;
    let mut marks = 0u32;
    for leaf in leaves {
        let table = LeafTable::of(alloc, leaf, names, marks)?;
        marks = marks.saturating_add(table.mark_count());
        if marks > MOST_COLOURS {
            return Err(Refusal::Task(TaskFault::TooLarge));
        }
        tables.push(table)?;
    }
    Ok(tables)
}

/// A search for the states of a product.
#[derive(Drop)]
struct ProductSearch<'s, 'a> {
    tables: &'s [LeafTable<'a>],
    all: &'s [u64],
    // The states that were found: the state of each leaf and the leaf of the Zielonka tree, or nothing where each word
    // is accepted.
    found: IndexSet<Vec<u32>>,
    residues: Residues,
    truths: Truths<'s>,
}

impl<'s, 'a> ProductSearch<'s, 'a> {
    /// Builds all states.
    fn run(&mut self, alloc: Global, builder: &mut DeterministicBuilder) -> Result<(), Refusal>
        ensures { IfErr result IsLarge }
    {
        if !self.begin(alloc)? {
            return builder.end_state();
        }
        // One round more than there may be states, in which the builder refuses one.
        for number in 0..=MOST_STATES {
            let state = match self.found.get_index(number) {
                Some(state) => Vec::from_slice(alloc, state.as_slice())?,
                None => break,
            };
            self.add_edges(alloc, state.as_slice(), builder)?;
            builder.end_state()?;
        }
        Ok(())
    }

    /// Finds the first state. Returns whether some word may be accepted.
    fn begin(&mut self, alloc: Global) -> Result<bool, Refusal>
        ensures { IfErr result IsLarge }
    {
        let mut states = Vec::with_capacity(alloc, self.tables.len())?;
        for table in self.tables {
            states.push(table.start())?;
        }
        if let Some(truth) = self.truths.truth(states.as_slice())? {
            self.universal_state(alloc)?;
            return Ok(truth);
        }
        let mut state = self.truths.needed_states(alloc, states.as_slice())?;
        let tree = self.tree_of(alloc, state.as_slice())?;
        state.push(self.residues.first_leaf(tree))?;
        self.found.insert_full(state)?;
        Ok(true)
    }

    /// Returns the number of the state from which each word is accepted.
    fn universal_state(&mut self, alloc: Global) -> Result<u32, AllocError> {
        let (number, _new) = self.found.insert_full(Vec::new(alloc))?;
        Ok(number_of(number))
    }

    /// Returns the number of the Zielonka tree for leaves in these states.
    fn tree_of(&mut self, alloc: Global, states: &[u32]) -> Result<u32, Refusal>
        ensures { IfErr result IsLarge }
    {
        let nodes = self.truths.nodes();
        self.residues.tree_of(alloc, nodes, self.tables, states)
    }

    /// Builds the edges of a state.
    fn add_edges(
        &mut self,
        alloc: Global,
        state: &[u32],
        builder: &mut DeterministicBuilder,
    ) -> Result<(), Refusal>
        ensures { IfErr result IsLarge }
    {
        let (leaf, states) = match state.split_last() {
            Some((leaf, states)) => (*leaf, states),
            None => {
                let number = self.universal_state(alloc)?;
                return builder.add_edge(number, 0, self.all);
            }
        };
        let tree = self.tree_of(alloc, states)?;
        let mut universal = vec![in alloc; 0; self.all.len()]?;
        let parts = parts_at(
            alloc,
            self.tables,
            &mut self.truths,
            self.all,
            states,
            &mut universal,
        )?;
        for index in 0..parts.len() {
            self.add_edge(alloc, tree, leaf, parts.at(index), builder)?;
        }
        if universal.iter().any(|word| *word != 0) {
            let number = self.universal_state(alloc)?;
            builder.add_edge(number, 0, universal.as_slice())?;
        }
        Ok(())
    }

    /// Builds the edge for a part of the letters, at which the truth of the whole is open, at a state with a leaf of a
    /// tree.
    fn add_edge(
        &mut self,
        alloc: Global,
        tree: u32,
        leaf: u32,
        part: Part<'_>,
        builder: &mut DeterministicBuilder,
    ) -> Result<(), Refusal>
        ensures { IfErr result IsLarge }
    {
        let mut state = self.truths.needed_states(alloc, part.states)?;
        let next = self.tree_of(alloc, state.as_slice())?;
        let step = self.residues.step(tree, leaf, part.marks, next);
        state.push(step.leaf)?;
        let (number, _new) = self.found.insert_full(state)?;
        builder.add_edge(number_of(number), step.colour, part.letters)
    }
}
