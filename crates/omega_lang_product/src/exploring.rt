//! The reachable pairs of states, found by breadth-first search, and the edges between them.

ghost use Rattle.std.specs.Prelude.{◌≡◌, ◌<◌, ◌≤◌, true, Contains, length, IfErr, IfOk, IsOkUnless, OnOk};
ghost use Rattle.omega_text.specs.Cases.{never, or_memory, or_task};
ghost use Rattle.omega_hoa_edges.specs.Limits.{most_states};
ghost use Rattle.omega_lang_product.specs.PairGraph.{joints_at};
ghost use Rattle.omega_lang_product.specs.Pairs.{first_leaving, second_leaving, start_state as first_listed};
ghost use Rattle.omega_lang_product.specs.Pairs.{pair_number, starts_between, starts_with, with_pairs};
ghost use Rattle.omega_lang_product.specs.private.Adding.{AddsAmong};
ghost use Rattle.omega_lang_product.specs.private.Explored.{AreMade, IsExplored};
ghost use Rattle.omega_lang_product.specs.private.Faults.{IsGraphFault};
ghost use Rattle.omega_lang_product.specs.private.Meeting.{MeetByIndex};
ghost use Rattle.omega_lang_product.specs.private.Operands.{AreTables, AreTabled, HasUnmetAt};
ghost use Rattle.omega_lang_product.specs.private.Operands.{HaveRows, targets_in};

use crate::adding::add_joints;
use crate::explored::Explored;
use crate::found_pairs::FoundPairs;
use crate::joint_edges::JointEdges;
use crate::operands::Operands;
use crate::tables::Tables;
use omega_hoa_automaton::Automaton;
use omega_hoa_edges::{MOST_EDGES, MOST_STATES};
use omega_text::{Numbers, Refusal, TaskFault};
use std::alloc::Global;

/// Finds the reachable pairs of states by breadth-first search, in the order in which they are found, and the edges
/// between them. Makes in `tables`, which are those of both automata, the edges of the states that are reached. Each
/// two edges are judged at most once. Fails with [TaskFault::TooManyPropositions] if it is undecided whether two edges
/// can be taken together. Fails with [TaskFault::TooLarge] if there are too many pairs or edges, or if a label or the
/// labels of two edges are too deep or too large.
pub(crate) fn explore(
    alloc: Global,
    one: &Automaton,
    other: &Automaton,
    tables: &mut Tables,
) -> Result<Explored, Refusal>
    requires { AreTables one.now other.now tables.old }
    ensures tables { OnOk result (AreTables one.now other.now tables.new) }
    ensures explored { IfOk result (IsExplored one.now other.now) }
    ensures made { IfOk result (AreMade tables.new) }
    ensures err { IfErr result (or_task (IsGraphFault one.now other.now) (or_memory never)) }
{
    let mut pairs = FoundPairs::new(alloc, one.defined().len(), other.defined().len())?;
    let mut edges = JointEdges::new(alloc);
    let mut past = Vec::new(alloc);
    add_starts(&mut pairs, one.starts(), other.starts())?;
    let mut at = 0;
    while at < pairs.len() {
        if MOST_STATES < pairs.len() {
            return Err(Refusal::Task(TaskFault::TooLarge));
        }
        let pair = pairs.at(at);
        tables.reach(alloc, one, other, pair)?;
        let operands = Operands { one, other, tables };
        expand(alloc, &operands, &mut pairs, &mut edges, pair, at as u32)?;
        if MOST_EDGES < edges.ends.len() {
            return Err(Refusal::Task(TaskFault::TooLarge));
        }
        past.push(edges.ends.len())?;
        at += 1;
    }
    Ok(Explored {
        pairs: pairs.into_set(),
        edges,
        past,
    })
}

/// Expands `pair`, which is among `pairs` with the number `from`: appends the edges that leave it, and adds the pairs
/// that they lead to. The edges of both of its states are made.
fn expand(
    alloc: Global,
    operands: &Operands<'_>,
    pairs: &mut FoundPairs,
    edges: &mut JointEdges,
    pair: (u32, u32),
    from: u32,
) -> Result<(), Refusal>
    requires tabled { AreTabled operands.now }
    requires made { HaveRows operands.now.tables.now pair }
    requires found { Contains pairs.old pair }
    requires numbered { from ≡ pair_number pairs.old pair }
    ensures pairs { OnOk result
        (pairs.new ≡ with_pairs pairs.old (targets_in operands.now pair)) }
    ensures edges { OnOk result (AddsAmong pairs.new
        (λ all. joints_at operands.now.one.now operands.now.other.now all pair) edges.old edges.new) }
    ensures err { IfErr result (or_task (HasUnmetAt operands.now pair) (or_memory never)) }
{
    let firsts = operands.tables.firsts.row_of(pair.0);
    let seconds = operands.tables.seconds.row_of(pair.1);
    let by_index = meet_by_index(operands, pair);
    add_joints(alloc, pairs, edges, from, &firsts, &seconds, by_index)
}

/// Whether of the edges that leave the states of `pair` only those of one index can be taken together, as far as their
/// automata and states tell. Then both automata have the same propositions, and both states an edge for each valuation
/// and no labels.
fn meet_by_index(operands: &Operands<'_>, pair: (u32, u32)) -> bool
    requires { AreTabled operands.now }
    ensures { result ≡ true
        → MeetByIndex (first_leaving operands.now.one.now operands.now.other.now pair)
        (second_leaving operands.now.one.now operands.now.other.now pair) }
{
    let firsts = &operands.tables.firsts;
    let seconds = &operands.tables.seconds;
    if firsts.places.as_slice() != seconds.places.as_slice() {
        return false;
    }
    firsts.is_full_at(operands.one, pair.0) && seconds.is_full_at(operands.other, pair.1)
}

/// Adds the pairs of a start of `starts` and one of `others`.
fn add_starts(found: &mut FoundPairs, starts: &[Numbers], others: &[Numbers]) -> Result<(), Refusal>
    ensures ok { OnOk result
        (found.new ≡ with_pairs found.old (starts_between starts.now others.now)) }
    ensures memory { IsOkUnless result Refusal.Memory }
{
    for start in starts {
        add_starts_with(found, start_state(start), others)?;
    }
    Ok(())
}

/// Adds the pairs of the state `first` and a start of `others`.
fn add_starts_with(found: &mut FoundPairs, first: u32, others: &[Numbers]) -> Result<(), Refusal>
    ensures ok { OnOk result
        (found.new ≡ with_pairs found.old (starts_with first others.now)) }
    ensures memory { IsOkUnless result Refusal.Memory }
{
    for other in others {
        found.insert((first, start_state(other)))?;
    }
    Ok(())
}

/// Returns the state that `start` lists first.
pub(crate) fn start_state(start: &Numbers) -> u32
    ensures { result ≡ first_listed start.now }
{
    start.as_slice().first().copied().unwrap_or(0)
}
