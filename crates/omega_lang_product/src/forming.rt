ghost use Rattle.std.specs.Prelude.{◌≡◌, ◌||◌, ◌+◌, ◌<◌, ◌≤◌, ◌^◌, length};
ghost use Rattle.std.specs.Prelude.{IfErr, IfOk, IsOkUnless, OnOk, sum_by};
ghost use Rattle.omega_text.specs.Cases.{never, or_memory, or_task};
ghost use Rattle.omega_text.specs.Limits.{most_number};
ghost use Rattle.omega_hoa_automaton.specs.Branching.{has_universal_branching};
ghost use Rattle.omega_hoa_automaton.specs.Limits.{most_propositions};
ghost use Rattle.omega_lang_product.specs.Joining.{joined_names as names_of_both};
ghost use Rattle.omega_lang_product.specs.Limits.{IsWithin};
ghost use Rattle.omega_hoa_edges.specs.Limits.{most_edges, most_states};
ghost use Rattle.omega_lang_product.specs.private.Explored.{AreMade, IsExplored};
ghost use Rattle.omega_lang_product.specs.private.Faults.{IsProductFault};
ghost use Rattle.omega_lang_product.specs.private.Headers.{AreOfBoth, IsHeader};
ghost use Rattle.omega_lang_product.specs.private.Operands.{AreTabled, AreTables};
ghost use Rattle.omega_lang_product.specs.Product.{IsProduct};
ghost use Rattle.omega_lang_product.specs.Refusing.{HaveNoBranch, IsProductRefusal};
ghost use Rattle.omega_hoa_edges.specs.Fitting.{IsLarge};
ghost use Rattle.omega_lang_product.specs.Written.{IsWritten, IsWrittenProduct};
ghost use Rattle.omega_hoa_automaton.specs.Written.{raw_automaton};

use crate::acceptance::joint_acceptance;
use crate::explored::Explored;
use crate::exploring::explore;
use crate::header::items_of;
use crate::names::joined_names;
use crate::operands::Operands;
use crate::starts::Starts;
use crate::states::states_of;
use crate::tables::Tables;
use omega_acc::{written_formulas_mean, written_labels_mean};
use omega_hoa_automaton::{Automaton, MOST_PROPOSITIONS, automaton_of, has_universal_branching};
use omega_hoa_syntax::{RawAutomaton, RawItem, RawState};
use omega_text::{ByteString, MOST_NUMBER, Refusal, Seq, TaskFault};
use std::alloc::Global;

/// Returns the product of two automata without universal branching. It accepts a word over the propositions of both
/// exactly if each accepts its part of the word (HOA v1; Vardi and Wolper 1994).
///
/// Propositions are joined by name, with those of `first` in front. The states are the reachable pairs of states. They
/// are numbered breadth first from the starts, in order. Each is named by the names of both states with a comma between
/// them, or by their numbers if one of them has no name. Each two edges whose labels can hold together make one edge,
/// whose label has the conjuncts of both, each once. Labels and marks of states move to edges. The sets of `second` are
/// numbered after those of `first`. The acceptance is the conjunction without `t`, and has a name if both are Büchi or
/// generalized Büchi.
///
/// Refusals, with `UniversalBranch` before the others:
///
/// - [TaskFault::UniversalBranch] if a start or an edge lists several states.
/// - [TaskFault::TooManyPropositions] if it is undecided whether the labels of two edges can hold together.
/// - [TaskFault::TooLarge] if the product would have over `MOST_STATES` states or `MOST_EDGES` edges, or would break a
///   limit of automata. Those are `MOST_PROPOSITIONS` propositions, `MOST_NUMBER` sets, and the depth and size of
///   labels and of the acceptance.
///
/// Takes time proportional to the number of pairs of edges, summed over the reachable pairs of states, and to the
/// states and edges of both. Each two edges are judged once, but of two states with an edge for each valuation and no
/// labels, over the same propositions, only those of one index. Labels are made only for edges that can be taken
/// together. Labels of states that no pair reaches are not looked at.
pub fn product(alloc: Global, first: &Automaton, second: &Automaton) -> Result<Automaton, Refusal>
    ensures product { IfOk result (IsProduct first.now second.now) }
    ensures written { IfOk result (IsWritten first.now second.now) }
    ensures within { IfOk result IsWithin }
    ensures given { OnOk result (HaveNoBranch first.now second.now) }
    ensures refused { IfErr result (IsProductRefusal first.now second.now) }
{
    if branches(first, second) {
        return Err(Refusal::Task(TaskFault::UniversalBranch));
    }
    product_automaton(alloc, first, second)
}

/// Whether a start or an edge of either automaton lists several states.
pub(crate) fn branches(first: &Automaton, second: &Automaton) -> bool
    ensures { result ≡ (has_universal_branching first.now || has_universal_branching second.now) }
{
    let in_first = has_universal_branching(first);
    let in_second = has_universal_branching(second);
    in_first || in_second
}

/// Returns the product of two automata without universal branching. Fails with [TaskFault::TooManyPropositions] or
/// [TaskFault::TooLarge].
fn product_automaton(
    alloc: Global,
    one: &Automaton,
    other: &Automaton,
) -> Result<Automaton, Refusal>
    ensures product { IfOk result (IsProduct one.now other.now) }
    ensures written { IfOk result (IsWritten one.now other.now) }
    ensures within { IfOk result IsWithin }
    ensures refused { IfErr result (or_task (IsProductFault one.now other.now) (or_memory never)) }
{
    written_labels_mean();
    written_formulas_mean();
    let raw = written_product(alloc, one, other)?;
    match automaton_of(alloc, raw) {
        Ok(product) => Ok(product),
        Err(Refusal::Automaton(_fault)) => Err(Refusal::Task(TaskFault::TooLarge)),
        Err(refusal) => Err(refusal),
    }
}

/// Returns the product as a text writes it, before it is judged. Fails with [TaskFault::TooManyPropositions] or
/// [TaskFault::TooLarge].
fn written_product(
    alloc: Global,
    one: &Automaton,
    other: &Automaton,
) -> Result<RawAutomaton, Refusal>
    ensures written { IfOk result (IsWrittenProduct one.now other.now) }
    ensures states { IfOk result (λ raw. length raw.states ≤ most_states) }
    ensures edges { IfOk result (λ raw. sum_by (λ state. length state.edges) raw.states ≤ most_edges) }
    ensures sets { OnOk result (one.now.sets + other.now.sets ≤ most_number) }
    ensures refused { IfErr result (or_task (IsProductFault one.now other.now) (or_memory never)) }
{
    let sets = sets_of_both(one, other)?;
    let names = names_of(alloc, one, other)?;
    let mut tables = Tables::of(alloc, one, other, names.as_slice())?;
    written_over(alloc, one, other, &mut tables, names, sets)
}

/// Returns the product as a text writes it, of two automata with these `tables`, the joined `names` and the number of
/// `sets` of both. Fails with [TaskFault::TooManyPropositions] or [TaskFault::TooLarge].
fn written_over(
    alloc: Global,
    one: &Automaton,
    other: &Automaton,
    tables: &mut Tables,
    names: Vec<ByteString>,
    sets: u32,
) -> Result<RawAutomaton, Refusal>
    requires tables { AreTables one.now other.now tables.old }
    requires header { AreOfBoth one.now other.now names.items sets }
    ensures written { IfOk result (IsWrittenProduct one.now other.now) }
    ensures states { IfOk result (λ raw. length raw.states ≤ most_states) }
    ensures edges { IfOk result (λ raw. sum_by (λ state. length state.edges) raw.states ≤ most_edges) }
    ensures refused { IfErr result (or_task (IsProductFault one.now other.now) (or_memory never)) }
{
    match explore(alloc, one, other, tables) {
        Ok(explored) => {
            let operands = Operands { one, other, tables };
            written_explored(alloc, &operands, &explored, names, sets)
        }
        Err(refusal) => Err(refusal),
    }
}

/// Returns the product as a text writes it, of the pairs and edges of `explored`. Fails with [TaskFault::TooLarge].
fn written_explored(
    alloc: Global,
    operands: &Operands<'_>,
    explored: &Explored,
    names: Vec<ByteString>,
    sets: u32,
) -> Result<RawAutomaton, Refusal>
    requires tabled { AreTabled operands.now }
    requires explored { IsExplored operands.now.one.now operands.now.other.now explored.now }
    requires made { AreMade operands.now.tables.now explored.now }
    requires header { AreOfBoth operands.now.one.now operands.now.other.now names.items sets }
    ensures written { IfOk result (IsWrittenProduct operands.now.one.now operands.now.other.now) }
    ensures states { IfOk result (λ raw. length raw.states ≤ most_states) }
    ensures edges { IfOk result (λ raw. sum_by (λ state. length state.edges) raw.states ≤ most_edges) }
    ensures refused { IfErr result
        (or_task (IsProductFault operands.now.one.now operands.now.other.now) (or_memory never)) }
{
    let states = states_of(alloc, operands, explored)?;
    match header_of(alloc, operands, explored, names, sets) {
        Ok(items) => raw_automaton_of(alloc, items, states),
        Err(refusal) => Err(refusal),
    }
}

/// Returns the header of the product of the pairs of `explored`. Fails with [TaskFault::TooLarge] if the acceptance is
/// too deep.
fn header_of(
    alloc: Global,
    operands: &Operands<'_>,
    explored: &Explored,
    names: Vec<ByteString>,
    sets: u32,
) -> Result<Vec<RawItem>, Refusal>
    requires few { length explored.now.pairs.keys ≤ most_states }
    requires header { AreOfBoth operands.now.one.now operands.now.other.now names.items sets }
    ensures header { IfOk result (λ items.
        IsHeader operands.now.one.now operands.now.other.now explored.now.pairs.keys items.items) }
    ensures refused { IfErr result
        (or_task (IsProductFault operands.now.one.now operands.now.other.now) (or_memory never)) }
{
    let acceptance = joint_acceptance(alloc, operands.one, operands.other)?;
    let starts = Starts {
        firsts: operands.one.starts(),
        seconds: operands.other.starts(),
        found: &explored.pairs,
    };
    Ok(items_of(alloc, names, sets, acceptance, &starts)?)
}

/// Returns the number of sets of both. Fails with [TaskFault::TooLarge] if a text has no number for it.
fn sets_of_both(one: &Automaton, other: &Automaton) -> Result<u32, Refusal>
    ensures ok { IfOk result (λ sets. sets ≡ one.now.sets + other.now.sets) }
    ensures within { IfOk result (λ sets. sets ≤ most_number) }
    ensures err { IfErr result (IsLarge (most_number < one.now.sets + other.now.sets)) }
{
    let first = one.set_count();
    let second = other.set_count();
    if MOST_NUMBER < first || MOST_NUMBER - first < second {
        return Err(Refusal::Task(TaskFault::TooLarge));
    }
    Ok(first + second)
}

/// Returns the names of the propositions of both. Fails with [TaskFault::TooLarge] if they are too many.
pub(crate) fn names_of(
    alloc: Global,
    one: &Automaton,
    other: &Automaton,
) -> Result<Vec<ByteString>, Refusal>
    ensures ok { IfOk result
        (λ names. names.items ≡ names_of_both one.now.propositions other.now.propositions) }
    ensures few { IfOk result (λ names. length names.items < 2 ^ 32) }
    ensures err { IfErr result (IsLarge
        (most_propositions < length (names_of_both one.now.propositions other.now.propositions))) }
{
    let names = joined_names(alloc, one.propositions(), other.propositions())?;
    if MOST_PROPOSITIONS < names.len() {
        return Err(Refusal::Task(TaskFault::TooLarge));
    }
    Ok(names)
}

/// Makes an automaton of a header and a body.
fn raw_automaton_of(
    alloc: Global,
    items: Vec<RawItem>,
    states: Vec<RawState>,
) -> Result<RawAutomaton, Refusal>
    ensures ok { IfOk result (λ raw. raw ≡ raw_automaton items.items states.items) }
    ensures memory { IsOkUnless result Refusal.Memory }
{
    let version = ByteString::from_slice(alloc, b"v1")?;
    Ok(RawAutomaton {
        version,
        items: Seq::from_vec(items),
        states: Seq::from_vec(states),
    })
}
