//! A complement as a text writes it, and the automaton that this means.

ghost use Rattle.std.specs.Prelude.{◌≡◌, ◌↔◌, ◌∷◌, [], ◌++◌, ◌+◌, IsTrue};
ghost use Rattle.std.specs.Prelude.{false, IfErr, IfOk, IsOkUnless, OnOk};
ghost use Rattle.omega_hoa_acceptance.specs.Writing.{acc_written};
ghost use Rattle.omega_hoa_syntax.specs.declared.raw_item.RawItem.TheVariants as item;
ghost use Rattle.omega_hoa_automaton.specs.Meaning.{Means};
ghost use Rattle.omega_lang_complement.specs.Complement.{exceeds_limits};
ghost use Rattle.omega_lang_complement.specs.Written.{IsWrittenComplement, NeedsSink, SomeLacksLetter};
ghost use Rattle.omega_lang_complement.specs.Written.{complement_acceptance, header, one_if};
ghost use Rattle.omega_lang_complement.specs.Written.{propositions_item, sink_state, sinks, start_or_sink};
ghost use Rattle.omega_lang_complement.specs.Written.{written_dual};
ghost use Rattle.omega_lang_complement.specs.private.Turned.{AreTurned, IsUnformed};

use crate::states::ComplementBody;
use omega_hoa_acceptance::RawAcc;
use omega_hoa_automaton::{Automaton, RawAutomaton, StateName, automaton_of};
use omega_hoa_label::RawLabel;
use omega_hoa_syntax::{RawEdge, RawEdges, RawItem, RawState};
use omega_text::{ByteString, Marks, Numbers, Refusal, Seq, TaskFault, copy_of_strings};
use std::alloc::Global;

/// Returns the complement as a text writes it, from the dual acceptance and the states.
pub(crate) fn written_complement(
    alloc: Global,
    automaton: &Automaton,
    formula: RawAcc,
    body: ComplementBody,
) -> Result<RawAutomaton, Refusal>
    requires limits { exceeds_limits automaton.now ≡ false }
    requires dual { formula ≡ written_dual automaton.now }
    requires turned { AreTurned automaton.now automaton.now.states body.states.items body.lacks }
    ensures written { IfOk result (IsWrittenComplement automaton.now) }
    ensures memory { IsOkUnless result Refusal.Memory }
{
    let sink = needs_sink(automaton, body.lacks);
    let items = header(alloc, automaton, formula, sink)?;
    let states = with_sink(alloc, automaton, body.states, sink)?;
    let version = ByteString::from_slice(alloc, b"v1")?;
    Ok(RawAutomaton {
        version,
        items: Seq::from_vec(items),
        states: Seq::from_vec(states),
    })
}

/// Whether a sink is needed. `lacks` says whether some state lacks a letter.
fn needs_sink(automaton: &Automaton, lacks: bool) -> bool
    requires { IsTrue lacks ↔ SomeLacksLetter automaton.now automaton.now.states }
    ensures { IsTrue result ↔ NeedsSink automaton.now }
{
    if automaton.starts().is_empty() {
        true
    } else {
        lacks
    }
}

/// Appends the sink to `states` if there is one.
fn with_sink(
    alloc: Global,
    automaton: &Automaton,
    states: Vec<RawState>,
    sink: bool,
) -> Result<Vec<RawState>, Refusal>
    ensures states { IfOk result (λ all. all.items ≡ states.items ++ sinks automaton.now sink) }
    ensures memory { IsOkUnless result Refusal.Memory }
{
    let mut all = states;
    if sink {
        all.push(sink_state(alloc, automaton)?)?;
    }
    Ok(all)
}

/// Returns the header, for a complement with or without a sink.
fn header(
    alloc: Global,
    automaton: &Automaton,
    formula: RawAcc,
    sink: bool,
) -> Result<Vec<RawItem>, Refusal>
    requires limits { exceeds_limits automaton.now ≡ false }
    requires dual { formula ≡ written_dual automaton.now }
    ensures items { IfOk result (λ items. items.items ≡ header automaton.now sink) }
    ensures memory { IsOkUnless result Refusal.Memory }
{
    match acceptance_of(alloc, automaton, formula, sink) {
        Ok(acceptance) => items_of(alloc, automaton, acceptance, sink),
        Err(refusal) => Err(refusal),
    }
}

/// Returns the header with the acceptance `formula`, for a complement with or without a sink.
fn items_of(
    alloc: Global,
    automaton: &Automaton,
    formula: RawAcc,
    sink: bool,
) -> Result<Vec<RawItem>, Refusal>
    requires limits { exceeds_limits automaton.now ≡ false }
    requires formula { formula ≡ acc_written (complement_acceptance automaton.now sink) }
    ensures items { IfOk result (λ items. items.items ≡ header automaton.now sink) }
    ensures memory { IsOkUnless result Refusal.Memory }
{
    let mut items = Vec::new(alloc);
    match push_items(alloc, &mut items, automaton, formula, sink) {
        Ok(()) => Ok(items),
        Err(refusal) => Err(refusal),
    }
}

/// Appends the items of the header with the acceptance `formula`.
fn push_items(
    alloc: Global,
    items: &mut Vec<RawItem>,
    automaton: &Automaton,
    formula: RawAcc,
    sink: bool,
) -> Result<(), Refusal>
    requires limits { exceeds_limits automaton.now ≡ false }
    requires formula { formula ≡ acc_written (complement_acceptance automaton.now sink) }
    ensures items { OnOk result (items.new.items ≡ items.old.items ++ header automaton.now sink) }
    ensures memory { IsOkUnless result Refusal.Memory }
{
    match push_counts(alloc, items, automaton, sink) {
        Ok(()) => push_acceptance(items, automaton, formula, sink),
        Err(refusal) => Err(refusal),
    }
}

/// Appends the number of states, the start and the propositions.
fn push_counts(
    alloc: Global,
    items: &mut Vec<RawItem>,
    automaton: &Automaton,
    sink: bool,
) -> Result<(), Refusal>
    requires { exceeds_limits automaton.now ≡ false }
    ensures items { OnOk result
        (items.new.items ≡ items.old.items ++ item.States (automaton.now.states + one_if sink)
        ∷ item.Start (start_or_sink automaton.now) ∷ propositions_item automaton.now ∷ []) }
    ensures memory { IsOkUnless result Refusal.Memory }
{
    items.push(RawItem::States(automaton.state_count() + u32::from(sink)))?;
    items.push(RawItem::Start(start_of(alloc, automaton)?))?;
    items.push(propositions(alloc, automaton)?)?;
    Ok(())
}

/// Appends the number of sets and the acceptance `formula`.
fn push_acceptance(
    items: &mut Vec<RawItem>,
    automaton: &Automaton,
    formula: RawAcc,
    sink: bool,
) -> Result<(), Refusal>
    requires { exceeds_limits automaton.now ≡ false }
    ensures items { OnOk result (items.new.items ≡ items.old.items
        ++ item.Acceptance (automaton.now.sets + one_if sink) formula ∷ []) }
    ensures memory { IsOkUnless result Refusal.Memory }
{
    items.push(RawItem::Acceptance {
        count: automaton.set_count() + u32::from(sink),
        formula,
    })?;
    Ok(())
}

/// Returns the acceptance, for a complement with or without a sink.
fn acceptance_of(
    alloc: Global,
    automaton: &Automaton,
    formula: RawAcc,
    sink: bool,
) -> Result<RawAcc, Refusal>
    requires limits { exceeds_limits automaton.now ≡ false }
    requires dual { formula ≡ written_dual automaton.now }
    ensures acceptance { IfOk result
        (λ written. written ≡ acc_written (complement_acceptance automaton.now sink)) }
    ensures memory { IsOkUnless result Refusal.Memory }
{
    if !sink {
        return Ok(formula);
    }
    formula.or(RawAcc::atom(alloc, b"Inf", false, automaton.set_count())?)
}

/// Returns the start of `automaton`, or the sink if it has none.
fn start_of(alloc: Global, automaton: &Automaton) -> Result<Numbers, Refusal>
    ensures start { IfOk result (λ start. start ≡ start_or_sink automaton.now) }
    ensures memory { IsOkUnless result Refusal.Memory }
{
    match automaton.starts().first() {
        None => Ok(Numbers::one(automaton.state_count())),
        Some(start) => Ok(Numbers::from_slice(alloc, start.as_slice())?),
    }
}

/// Returns the header item of the propositions.
fn propositions(alloc: Global, automaton: &Automaton) -> Result<RawItem, Refusal>
    ensures item { IfOk result (λ item. item ≡ propositions_item automaton.now) }
    ensures memory { IsOkUnless result Refusal.Memory }
{
    automaton.keeps_limits();
    let names = automaton.propositions();
    let count = names.len() as u32;
    Ok(RawItem::Propositions {
        count,
        names: Seq::from_vec(copy_of_strings(alloc, names)?),
    })
}

/// Returns the sink.
fn sink_state(alloc: Global, automaton: &Automaton) -> Result<RawState, Refusal>
    ensures sink { IfOk result (λ state. state ≡ sink_state automaton.now) }
    ensures memory { IsOkUnless result Refusal.Memory }
{
    let mut edges = RawEdges::new(alloc);
    let edge = RawEdge {
        label: Some(RawLabel::constant(alloc, true)?),
        targets: Numbers::one(automaton.state_count()),
        marks: Marks::of(Numbers::one(automaton.set_count())),
    };
    edges.push(alloc, edge)?;
    Ok(RawState {
        label: None,
        number: automaton.state_count(),
        name: StateName::absent(),
        marks: Marks::absent(),
        edges,
    })
}

/// Returns the meaning of `raw`. Fails with [TaskFault::TooLarge] if `raw` breaks a limit of automata. Law
/// `complements_are_writable` of `omega_laws` says which limits these can be.
pub(crate) fn automaton_of_raw(alloc: Global, raw: RawAutomaton) -> Result<Automaton, Refusal>
    ensures means { IfOk result (Means raw) }
    ensures err { IfErr result (IsUnformed raw) }
{
    match automaton_of(alloc, raw) {
        Ok(automaton) => Ok(automaton),
        Err(Refusal::Automaton(_fault)) => Err(Refusal::Task(TaskFault::TooLarge)),
        Err(refusal) => Err(refusal),
    }
}
