ghost use Rattle.std.specs.Prelude.{IfErr, IfOk};
ghost use Rattle.omega_ltl_determinization.specs.Refusing.{IsLarge};
ghost use Rattle.omega_ltl_deterministic.specs.Candidate.{IsCandidate};

use crate::completion::{REJECTING, complete_automaton};
use crate::forming::automaton_over;
use crate::leaves::leaves_of;
use crate::parts::parts_of;
use omega_graph_search::number_of;
use omega_hoa_automaton::Automaton;
use omega_ltl_determinization::{DeterministicAutomaton, MOST_NAMES};
use omega_ltl_formula::Formula;
use omega_ltl_parity_product::product;
use omega_text::{Refusal, TaskFault};
use std::alloc::Global;

/// Returns a deterministic parity automaton that is to accept exactly the words that satisfy a formula. Nothing is
/// proved of its words and of its being deterministic, which its user judges.
///
/// The formula is taken apart into the maximal temporal parts of its Boolean structure, where `G(f & g)` is two and
/// `F(f | g)` too. Each is made deterministic by [`omega_ltl_parity_product::leaf_of`], and all are put together by
/// [`product`]. A second call returns the same automaton.
///
/// Its acceptance is `parity min even`, with one mark on each edge, and with at least one set. It has no name. Its
/// propositions are the names of the formula, and its edges, one for each target and colour of a state, have small
/// disjunctions of conjunctions as labels.
///
/// Fails with [`TaskFault::TooLarge`] if there are over [`MOST_NAMES`] names, or over
/// [`omega_ltl_determinization::MOST_LEAF_NAMES`] in one part, or if a part, the product, a label or the acceptance
/// passes its limit. Time and memory may be doubly exponential in the size of a part.
pub fn deterministic_candidate(alloc: Global, formula: &Formula) -> Result<Automaton, Refusal>
    ensures candidate { IfOk result (IsCandidate formula.now.table.names) }
    ensures err { IfErr result IsLarge }
{
    let found = product_of_parts(alloc, formula)?;
    automaton_over(alloc, &found, formula.names())
}

/// Returns an automaton as [deterministic_candidate] does, but in each state there is to be an edge for each letter, so
/// that whoever plays on it can always go on. Where letters have none it leads to a sink, which rejects. That each
/// letter has an edge is not proved.
///
/// Fails as [deterministic_candidate] does, and also with [`TaskFault::TooLarge`] if the sink is a state too many.
pub fn complete_candidate(alloc: Global, formula: &Formula) -> Result<Automaton, Refusal>
    ensures candidate { IfOk result (IsCandidate formula.now.table.names) }
    ensures err { IfErr result IsLarge }
{
    let found = product_of_parts(alloc, formula)?;
    let complete = complete_automaton(alloc, found, REJECTING)?;
    automaton_over(alloc, &complete, formula.names())
}

/// Returns a deterministic automaton of a formula as flat arrays: the product of its parts. Fails as
/// [deterministic_candidate] does up to its labels.
fn product_of_parts(alloc: Global, formula: &Formula) -> Result<DeterministicAutomaton, Refusal>
    ensures { IfErr result IsLarge }
{
    let names = number_of(formula.names().len());
    if names > MOST_NAMES {
        return Err(Refusal::Task(TaskFault::TooLarge));
    }
    let parts = parts_of(alloc, formula)?;
    let leaves = leaves_of(alloc, formula, parts.leaves.as_slice())?;
    product(
        alloc,
        names,
        leaves.as_slice(),
        parts.combination.as_slice(),
    )
}
