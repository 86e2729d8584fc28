//! The graph of the reachable pairs of states.

ghost use Rattle.std.specs.Prelude.{◌≡◌, ◌+◌, ◌++◌, ◌<◌, ◌≤◌, ◌^◌, length, map};
ghost use Rattle.std.specs.Prelude.{IfErr, IfOk, IsOkUnless, OnOk};
ghost use Rattle.omega_text.specs.Cases.{never, or_memory, or_task};
ghost use Rattle.omega_hoa_edges.specs.Fitting.{IsLarge};
ghost use Rattle.omega_hoa_edges.specs.Limits.{most_edges, most_states};
ghost use Rattle.omega_lang_product.specs.Joining.{joined_names};
ghost use Rattle.omega_lang_product.specs.Pairs.{pair_number, start_pairs, starts_with};
ghost use Rattle.omega_lang_product.specs.PairGraph.{IsPairGraph};
ghost use Rattle.omega_lang_product.specs.Limits.{HaveFewPairs, most_joint_sets};
ghost use Rattle.omega_lang_product.specs.Refusing.{HaveNoBranch, IsGraphRefusal};
ghost use Rattle.omega_lang_product.specs.private.Explored.{IsExplored};
ghost use Rattle.omega_lang_product.specs.private.Faults.{IsGraphFault};
ghost use Rattle.omega_lang_product.specs.private.Operands.{AreTables};
ghost use Rattle.omega_lang_product.specs.private.Starts.{pairs_of};

use crate::conjoining::joint_formula;
use crate::explored::Explored;
use crate::exploring::{explore, start_state};
use crate::forming::{branches, names_of};
use crate::graph::PairGraph;
use crate::pairs::number_of;
use crate::starts::Starts;
use crate::tables::Tables;
use omega_hoa_automaton::Automaton;
use omega_text::{ByteString, Refusal, TaskFault};
use std::alloc::Global;

/// Returns the graph of the product of two automata without universal branching, as `product` makes it, but writes
/// neither its labels nor names of its states. Each edge has the numbers of the two edges that it takes together.
///
/// Refusals, with `UniversalBranch` before the others:
///
/// - [TaskFault::UniversalBranch] if a start or an edge lists several states.
/// - [TaskFault::TooManyPropositions] if it is undecided whether the labels of two edges can hold together.
/// - [TaskFault::TooLarge] if over `MOST_STATES` pairs are reachable, or over `MOST_EDGES` edges lead between them; if
///   both have over `MOST_PROPOSITIONS` propositions or over 2^32 - 1 sets; or if an acceptance, or the labels of two
///   edges that leave one pair, are too deep or too large to be conjoined. No text is made, so none of the limits of
///   texts is among them.
///
/// Takes time proportional to the number of pairs of edges, summed over the reachable pairs of states, and to the
/// states and edges of both. Each two edges are judged once, or fewer, as `product` says. Labels of states that no pair
/// reaches are not looked at.
pub fn pair_graph(
    alloc: Global,
    first: &Automaton,
    second: &Automaton,
) -> Result<PairGraph, Refusal>
    ensures graph { IfOk result (IsPairGraph first.now second.now) }
    ensures few_pairs { OnOk result (HaveFewPairs first.now second.now) }
    ensures few { IfOk result (λ graph. length graph.edges.ends.items ≤ most_edges) }
    ensures named { IfOk result (λ graph. length graph.propositions.items < 2 ^ 32) }
    ensures given { OnOk result (HaveNoBranch first.now second.now) }
    ensures refused { IfErr result (IsGraphRefusal first.now second.now) }
{
    if branches(first, second) {
        return Err(Refusal::Task(TaskFault::UniversalBranch));
    }
    graph_of(alloc, first, second)
}

/// Returns the graph of the product of two automata without universal branching. Fails with
/// [TaskFault::TooManyPropositions] or [TaskFault::TooLarge].
fn graph_of(alloc: Global, one: &Automaton, other: &Automaton) -> Result<PairGraph, Refusal>
    ensures graph { IfOk result (IsPairGraph one.now other.now) }
    ensures few_pairs { OnOk result (HaveFewPairs one.now other.now) }
    ensures few { IfOk result (λ graph. length graph.edges.ends.items ≤ most_edges) }
    ensures named { IfOk result (λ graph. length graph.propositions.items < 2 ^ 32) }
    ensures refused { IfErr result (or_task (IsGraphFault one.now other.now) (or_memory never)) }
{
    judge_sets(one, other)?;
    let names = names_of(alloc, one, other)?;
    let mut tables = Tables::of(alloc, one, other, names.as_slice())?;
    graph_over(alloc, one, other, &mut tables, names)
}

/// Fails with [TaskFault::TooLarge] if the sets of both are too many to be numbered one after the other.
fn judge_sets(one: &Automaton, other: &Automaton) -> Result<(), Refusal>
    ensures ok { OnOk result (one.now.sets + other.now.sets ≤ most_joint_sets) }
    ensures err { IfErr result (IsLarge (most_joint_sets < one.now.sets + other.now.sets)) }
{
    if u32::MAX - one.set_count() < other.set_count() {
        return Err(Refusal::Task(TaskFault::TooLarge));
    }
    Ok(())
}

/// Returns the graph of two automata with these `tables` and the joined `names` of both. Fails with
/// [TaskFault::TooManyPropositions] or [TaskFault::TooLarge].
fn graph_over(
    alloc: Global,
    one: &Automaton,
    other: &Automaton,
    tables: &mut Tables,
    names: Vec<ByteString>,
) -> Result<PairGraph, Refusal>
    requires tables { AreTables one.now other.now tables.old }
    requires names { names.items ≡ joined_names one.now.propositions other.now.propositions }
    requires named { length names.items < 2 ^ 32 }
    ensures graph { IfOk result (IsPairGraph one.now other.now) }
    ensures few_pairs { OnOk result (HaveFewPairs one.now other.now) }
    ensures few { IfOk result (λ graph. length graph.edges.ends.items ≤ most_edges) }
    ensures named { IfOk result (λ graph. length graph.propositions.items < 2 ^ 32) }
    ensures refused { IfErr result (or_task (IsGraphFault one.now other.now) (or_memory never)) }
{
    match explore(alloc, one, other, tables) {
        Ok(explored) => graph_explored(alloc, one, other, explored, names),
        Err(refusal) => Err(refusal),
    }
}

/// Returns the graph of the pairs and edges of `explored`. Fails with [TaskFault::TooLarge] if the acceptance is too
/// deep.
fn graph_explored(
    alloc: Global,
    one: &Automaton,
    other: &Automaton,
    explored: Explored,
    names: Vec<ByteString>,
) -> Result<PairGraph, Refusal>
    requires explored { IsExplored one.now other.now explored }
    requires names { names.items ≡ joined_names one.now.propositions other.now.propositions }
    requires named { length names.items < 2 ^ 32 }
    ensures graph { IfOk result (IsPairGraph one.now other.now) }
    ensures few_pairs { OnOk result (HaveFewPairs one.now other.now) }
    ensures few { IfOk result (λ graph. length graph.edges.ends.items ≤ most_edges) }
    ensures named { IfOk result (λ graph. length graph.propositions.items < 2 ^ 32) }
    ensures refused { IfErr result (or_task (IsGraphFault one.now other.now) (or_memory never)) }
{
    match starts_in(alloc, one, other, &explored) {
        Ok(starts) => graph_with(alloc, one, other, explored, names, starts),
        Err(refusal) => Err(refusal),
    }
}

/// Returns the graph with these `starts`, the numbers of the pairs of a first and a second start. Fails with
/// [TaskFault::TooLarge] if the acceptance is too deep.
fn graph_with(
    alloc: Global,
    one: &Automaton,
    other: &Automaton,
    explored: Explored,
    names: Vec<ByteString>,
    starts: Vec<u32>,
) -> Result<PairGraph, Refusal>
    requires explored { IsExplored one.now other.now explored }
    requires names { names.items ≡ joined_names one.now.propositions other.now.propositions }
    requires named { length names.items < 2 ^ 32 }
    requires starts { starts.items
        ≡ map (pair_number explored.pairs.keys) (start_pairs one.now other.now) }
    ensures graph { IfOk result (IsPairGraph one.now other.now) }
    ensures few_pairs { OnOk result (HaveFewPairs one.now other.now) }
    ensures few { IfOk result (λ graph. length graph.edges.ends.items ≤ most_edges) }
    ensures named { IfOk result (λ graph. length graph.propositions.items < 2 ^ 32) }
    ensures refused { IfErr result (or_task (IsGraphFault one.now other.now) (or_memory never)) }
{
    match joint_formula(alloc, one, other) {
        Ok(acceptance) => {
            let Explored {
                pairs: _pairs,
                edges,
                past: _past,
            } = explored;
            Ok(PairGraph {
                propositions: names,
                starts,
                edges,
                acceptance,
            })
        }
        Err(refusal) => Err(refusal),
    }
}

/// Returns the numbers of the pairs of a start of the one and a start of the other.
fn starts_in(
    alloc: Global,
    one: &Automaton,
    other: &Automaton,
    explored: &Explored,
) -> Result<Vec<u32>, Refusal>
    requires { length explored.now.pairs.keys ≤ most_states }
    ensures ok { IfOk result (λ numbers.
        numbers.items ≡ map (pair_number explored.now.pairs.keys) (start_pairs one.now other.now)) }
    ensures memory { IsOkUnless result Refusal.Memory }
{
    let starts = Starts {
        firsts: one.starts(),
        seconds: other.starts(),
        found: &explored.pairs,
    };
    start_numbers(alloc, &starts)
}

/// Returns the numbers of the pairs of a first and a second start.
fn start_numbers(alloc: Global, starts: &Starts<'_>) -> Result<Vec<u32>, Refusal>
    requires { length starts.now.found.now.keys ≤ most_states }
    ensures ok { IfOk result (λ numbers.
        numbers.items ≡ map (pair_number starts.now.found.now.keys) (pairs_of starts.now)) }
    ensures memory { IsOkUnless result Refusal.Memory }
{
    let mut numbers = Vec::new(alloc);
    for first in starts.firsts {
        add_start_numbers(&mut numbers, start_state(first), starts)?;
    }
    Ok(numbers)
}

/// Appends the numbers of the pairs of the state `first` and a second start.
fn add_start_numbers(numbers: &mut Vec<u32>, first: u32, starts: &Starts<'_>) -> Result<(), Refusal>
    requires { length starts.now.found.now.keys ≤ most_states }
    ensures ok { OnOk result (numbers.new.items ≡ numbers.old.items
        ++ map (pair_number starts.now.found.now.keys) (starts_with first starts.now.seconds.now)) }
    ensures memory { IsOkUnless result Refusal.Memory }
{
    for second in starts.seconds {
        numbers.push(number_of(starts.found, (first, start_state(second))))?;
    }
    Ok(())
}
