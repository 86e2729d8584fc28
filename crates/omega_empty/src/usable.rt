ghost use Rattle.std.specs.Prelude.{◌≡◌, ◌↔◌, IfErr, IfOk, IsTrue, OnOk};
ghost use Rattle.std.specs.Option.{option_copied};
ghost use Rattle.omega_lang_runs.specs.Judging.{AreUsable, HasNarrow, HasNarrowLabels};
ghost use Rattle.omega_lang_runs.specs.Judging.{HasWide, HasWideLabel, IsNarrowLabel, IsWide};
ghost use Rattle.omega_lang_runs.specs.Lasso.{IsUsable};
ghost use Rattle.omega_empty.specs.private.layout.Judging.{AppendsJudged, IsWideFault, IsWideRefusal};
ghost use Rattle.omega_empty.specs.private.layout.Nodes.{body_edge};

use omega_hoa_automaton::{Automaton, EdgeRef, Refusal, State};
use omega_hoa_label::Label;
use omega_hoa_satisfiable::is_narrow;
use omega_lang_runs::JudgedState;
use omega_text::TaskFault;
use std::alloc::Global;

/// Returns by number which edges of `automaton` are usable. Each label is judged once. Fails with
/// [TaskFault::TooManyPropositions] if a label mentions over `MOST_MENTIONED` propositions.
pub(crate) fn usable_edges(alloc: Global, automaton: &Automaton) -> Result<Vec<bool>, Refusal>
    ensures usable { IfOk result (λ usable. AreUsable automaton.now usable.items) }
    ensures narrow { OnOk result (HasNarrowLabels automaton.now) }
    ensures refused { IfErr result (IsWideRefusal (HasWideLabel automaton.now)) }
{
    let mut usable = Vec::new(alloc);
    for state in automaton.defined() {
        judge_edges(alloc, state, &mut usable)?;
    }
    Ok(usable)
}

/// Appends to `usable` for each edge of `state` whether it is usable. Fails with [TaskFault::TooManyPropositions] if
/// the label of the state or of an edge mentions too many propositions.
fn judge_edges(alloc: Global, state: &State, usable: &mut Vec<bool>) -> Result<(), Refusal>
    ensures judged { OnOk result (AppendsJudged state.now usable.old.items usable.new.items) }
    ensures narrow { OnOk result (HasNarrow state.now) }
    ensures refused { IfErr result (IsWideRefusal (HasWide state.now)) }
{
    let judged_state = narrow_state(alloc, state)?;
    for at in 0..state.edges.len() {
        let edge = state.edges.edge(at);
        let judged = is_usable(alloc, &judged_state, &edge)?;
        usable.push(judged)?;
    }
    Ok(())
}

/// Returns `state` with its label judged. Fails with [TaskFault::TooManyPropositions] if the label mentions too many
/// propositions.
fn narrow_state<'a>(alloc: Global, state: &'a State) -> Result<JudgedState<'a>, Refusal>
    ensures state { IfOk result (λ judged. judged ≡ state.entry.now) }
    ensures narrow { OnOk result (IsNarrowLabel state.entry.now.label) }
    ensures refused { IfErr result (IsWideRefusal (IsWide state.entry.now.label)) }
{
    check_narrow(state.label.as_ref())?;
    JudgedState::of(alloc, state)
}

/// Whether `edge` of `state` is usable. Fails with [TaskFault::TooManyPropositions] if its label mentions too many
/// propositions, even if the state has a label, which decides then.
fn is_usable(alloc: Global, state: &JudgedState<'_>, edge: &EdgeRef<'_>) -> Result<bool, Refusal>
    ensures judged { IfOk result (λ judged. IsTrue judged ↔ IsUsable (body_edge state.now edge.now)) }
    ensures narrow { OnOk result (IsNarrowLabel edge.now.label) }
    ensures refused { IfErr result (IsWideRefusal (IsWide edge.now.label)) }
{
    check_narrow(edge.label())?;
    let judged = state.is_usable(alloc, edge)?;
    Ok(judged)
}

/// Fails with [TaskFault::TooManyPropositions] if there is a label and it mentions too many propositions.
fn check_narrow(label: Option<&Label>) -> Result<(), Refusal>
    ensures narrow { OnOk result (IsNarrowLabel (option_copied label.entry)) }
    ensures refused { IfErr result (IsWideFault (IsWide (option_copied label.entry))) }
{
    match label {
        None => Ok(()),
        Some(label) => {
            if is_narrow(label) {
                Ok(())
            } else {
                Err(Refusal::Task(TaskFault::TooManyPropositions))
            }
        }
    }
}
