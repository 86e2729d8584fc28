//! Which edges of an automaton are usable.
ghost use Rattle.std.specs.Prelude.{◌≡◌, ◌++◌, [], ◌∷◌, if◌then◌else◌, IfErr, IfOk, IsOkUnless, OnOk};
ghost use Rattle.std.specs.List.Sorted.{IsStrictlyIncreasing};
ghost use Rattle.omega_hoa_automaton.specs.Automaton.{edges_from};
ghost use Rattle.omega_lang_runs.specs.Judging.{AreUsable, GivesUpOn, HasHard, HasHardLabel};
ghost use Rattle.omega_lang_lasso_search.specs.private.Judged.{AddsJudged};
ghost use Rattle.omega_lang_lasso_search.specs.Tabled.{AreUsableEdges};

use omega_hoa_automaton::{Automaton, Refusal, State};
use omega_lang_runs::JudgedState;
use std::alloc::Global;

/// Returns the numbers of the usable edges, in ascending order. A label of a state is judged once, and then those of
/// its edges are not. Fails with [TaskFault::TooManyPropositions] if a label mentions over `MOST_MENTIONED`
/// propositions and is given up.
pub fn usable_edges(alloc: Global, automaton: &Automaton) -> Result<Vec<u32>, Refusal>
    ensures usable { IfOk result (λ edges. AreUsableEdges automaton.now edges.items) }
    ensures rising { IfOk result (λ edges. IsStrictlyIncreasing edges.items) }
    ensures refused { IfErr result (GivesUpOn (HasHardLabel automaton.now)) }
{
    let flags = usable_flags(alloc, automaton)?;
    let edges = flagged_edges(alloc, automaton, flags.as_slice())?;
    Ok(edges)
}

/// Returns for each edge whether it is usable, by number. Fails with [TaskFault::TooManyPropositions] if a label is
/// given up.
fn usable_flags(alloc: Global, automaton: &Automaton) -> Result<Vec<bool>, Refusal>
    ensures usable { IfOk result (λ usable. AreUsable automaton.now usable.items) }
    ensures refused { IfErr result (GivesUpOn (HasHardLabel automaton.now)) }
{
    let mut usable = Vec::with_capacity(alloc, automaton.edge_count() as usize)?;
    for state in automaton.defined() {
        judge_edges(alloc, state, &mut usable)?;
    }
    Ok(usable)
}

/// Appends for each edge of `state` whether it is usable. Fails with [TaskFault::TooManyPropositions] if a label is
/// given up.
fn judge_edges(alloc: Global, state: &State, usable: &mut Vec<bool>) -> Result<(), Refusal>
    ensures judged { OnOk result
        (AddsJudged (edges_from state.now) usable.old.items usable.new.items) }
    ensures refused { IfErr result (GivesUpOn (HasHard state.now)) }
{
    let judged_state = JudgedState::of(alloc, state)?;
    for at in 0..state.edges.len() {
        let edge = state.edges.edge(at);
        let judged = judged_state.is_usable(alloc, &edge)?;
        usable.push(judged)?;
    }
    Ok(())
}

/// Returns the numbers of the edges whose `flags` are set, in ascending order.
fn flagged_edges(alloc: Global, automaton: &Automaton, flags: &[bool]) -> Result<Vec<u32>, Refusal>
    requires { AreUsable automaton.now flags.now }
    ensures usable { IfOk result (λ edges. AreUsableEdges automaton.now edges.items) }
    ensures rising { IfOk result (λ edges. IsStrictlyIncreasing edges.items) }
    ensures memory { IsOkUnless result Refusal.Memory }
{
    let mut edges = Vec::with_capacity(alloc, automaton.edge_count() as usize)?;
    for number in 0..automaton.edge_count() {
        add_chosen(&mut edges, flags[number as usize], number)?;
    }
    Ok(edges)
}

/// Appends `number` if `flag` is set.
fn add_chosen(numbers: &mut Vec<u32>, flag: bool, number: u32) -> Result<(), Refusal>
    ensures numbers { OnOk result
        (numbers.new.items ≡ (if flag then numbers.old.items ++ number ∷ [] else numbers.old.items)) }
    ensures memory { IsOkUnless result Refusal.Memory }
{
    if flag {
        numbers.push(number)?;
    }
    Ok(())
}
