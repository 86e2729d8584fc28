//! The nondeterministic automaton of a formula, whose states are sets of demands (Couvreur 1999), over letters as bits.
ghost use Rattle.std.specs.Prelude.{◌<◌, ℕ, Contains, IfErr, IsTrue};
ghost use Rattle.omega_ltl_determinization.specs.Refusing.{IsLarge};
ghost use Rattle.omega_ltl_terms.specs.Tables.{AreTables};

use crate::state_edges::StateEdges;
use indexmap::IndexSet;
use omega_graph_search::number_of;
use omega_ltl_determinization::{MOST_STATES, NondeterministicAutomaton, word_count};
use omega_ltl_formula::Formula;
use omega_ltl_shapes::Term;
use omega_ltl_terms::Tables;
use omega_text::{Refusal, TaskFault};
use std::alloc::{AllocError, Global};

/// Returns an automaton that is to accept the words that satisfy a formula, or, if `negated`, those that do not. Its
/// letters give truth values to the names of the formula.
///
/// Fails with [`TaskFault::TooLarge`] if there are over [`omega_ltl_determinization::MOST_NAMES`] names or over
/// [`MOST_STATES`] states, or if terms or sets of demands pass their limits.
pub(crate) fn automaton_of_demands(
    alloc: Global,
    formula: &Formula,
    negated: bool,
) -> Result<NondeterministicAutomaton, Refusal>
    ensures { IfErr result IsLarge }
{
    let tables = Tables::of_formula(alloc, formula, negated)?;
    let names = number_of(formula.names().len());
    let sets = number_of(tables.strongs.len());
    let mut automaton = NondeterministicAutomaton::new(alloc, names, sets)?;
    let root = number_of(formula.root())
        .saturating_mul(2)
        .saturating_add(u32::from(negated));
    let mut graph = DemandGraph {
        marks: first_bits(sets),
        found: IndexSet::new(alloc),
        edges: StateEdges::new(alloc, names, word_count(names)),
    };
    graph.explore(alloc, &tables, root, &mut automaton)?;
    Ok(automaton)
}

/// Returns the word whose first bits are set.
fn first_bits(count: u32) -> u64 {
    if count >= 64 {
        return u64::MAX;
    }
    (1 << count) - 1
}

/// The states of an automaton that is being made, and the edges of one of them.
#[derive(Drop)]
struct DemandGraph {
    // A bit for each set.
    marks: u64,
    // The demands of each state.
    found: IndexSet<Vec<u32>>,
    edges: StateEdges,
}

impl DemandGraph {
    /// Adds the states to which a demand leads. Fails with [`TaskFault::TooLarge`] past a limit.
    fn explore(
        &mut self,
        alloc: Global,
        tables: &Tables,
        root: u32,
        automaton: &mut NondeterministicAutomaton,
    ) -> Result<(), Refusal>
        requires { AreTables tables.now }
        ensures { IfErr result IsLarge }
    {
        let start = match tables.closed(alloc, &[root])? {
            Some(start) => start,
            // The demand is false.
            None => return Ok(()),
        };
        let start = self.number_of_state(alloc, start.as_slice())?;
        automaton.add_start(start)?;
        // One round more than there may be states, in which one is refused.
        for number in 0..=MOST_STATES {
            let state = match self.found.get_index(number) {
                Some(state) => Vec::from_slice(alloc, state.as_slice())?,
                None => break,
            };
            if number == MOST_STATES {
                return Err(Refusal::Task(TaskFault::TooLarge));
            }
            self.add_edges(alloc, tables, state.as_slice())?;
            self.edges.end(alloc, automaton)?;
        }
        Ok(())
    }

    /// Adds the edges of a state, and the states to which they lead.
    fn add_edges(&mut self, alloc: Global, tables: &Tables, state: &[u32]) -> Result<(), Refusal>
        requires { AreTables tables.now }
        ensures { IfErr result IsLarge }
    {
        let terms = terms_of(alloc, tables, state)?;
        for term in &terms {
            let target = self.number_of_state(alloc, term.next.as_slice())?;
            self.edges.add(term.cube, target, self.marks & !term.late)?;
        }
        Ok(())
    }

    /// Returns the number of a state, which is added if it is not there.
    fn number_of_state(&mut self, alloc: Global, state: &[u32]) -> Result<u32, AllocError> {
        if let Some(number) = self.found.get_index_of(state) {
            return Ok(number_of(number));
        }
        let key = Vec::from_slice(alloc, state)?;
        let (number, _new) = self.found.insert_full(key)?;
        Ok(number_of(number))
    }
}

/// Returns the edges of a state. Its demands are below their count: with others, to which no search comes, fails with
/// [`TaskFault::TooLarge`].
fn terms_of(alloc: Global, tables: &Tables, state: &[u32]) -> Result<Vec<Term>, Refusal>
    requires { AreTables tables.now }
    ensures { IfErr result IsLarge }
{
    if are_below(state, tables.shapes.len()) {
        tables.edges_of(alloc, state)
    } else {
        Err(Refusal::Task(TaskFault::TooLarge))
    }
}

/// Whether all demands are below a count.
fn are_below(demands: &[u32], count: usize) -> bool
    ensures { IsTrue result → (d : ℕ) → Contains demands.now d → d < count }
{
    for d in demands {
        if *d as usize >= count {
            return false;
        }
    }
    true
}
