//! The outputs of a formula: the names that the system controls.

ghost use Rattle.std.specs.Prelude.{◌≡◌, ◌↔◌, ◌∷◌, [], ◌++◌, None, Some, if◌then◌else◌, not};
ghost use Rattle.std.specs.Prelude.{IfErr, IfOk, IsOkUnless, IsTrue, OnOk};
ghost use Rattle.omega_answers_synth.specs.Outputs.{AreApart, AreListedOutputs, AreNamed, AreOutputs};
ghost use Rattle.omega_answers_synth.specs.Outputs.{AreOutputsRefused, ArePartedBy, IsUnparted, lists_of};
ghost use Rattle.omega_answers_synth.specs.Outputs.{names_without};
ghost use Rattle.omega_answers_synth.specs.private.Listed.{AreListedAlike, hold_alike};
ghost use Rattle.omega_answers_synth.specs.private.Parted.{AreOutputsBy, IsUnpartedBy};

use crate::given_names::GivenNames;
use crate::parting::is_listed;
use omega_hoa_automaton::{Automaton, Refusal};
use omega_io::{Refused, Which};
use omega_ltl_formula::Formula;
use omega_synth_check::is_name_among;
use omega_synth_controllers::{controlled_propositions, has_controllable_item};
use omega_text::{ByteString, TaskFault, copy_of_strings};
use std::alloc::Global;

/// Returns the names of `formula` that the system controls. If `names` lists them they are those, and else all that are
/// not listed for the environment, in the order of the formula.
///
/// Fails with [TaskFault::Controllable] if `names` has no list, or if a name is listed that `formula` does not have, or
/// if both lists are given and do not have each name of `formula` in exactly one of them. Takes the time of comparing
/// each name that is listed with each name of `formula`.
pub fn outputs_of(
    alloc: Global,
    formula: &Formula,
    names: GivenNames<'_>,
) -> Result<Vec<ByteString>, Refusal>
    ensures outputs { IfOk result (λ outs. AreListedOutputs formula.now (lists_of names.entry) outs.items) }
    ensures refused { IfErr result (IsUnparted formula.now (lists_of names.entry)) }
{
    match names.outs {
        Some(outs) => match names.ins {
            Some(ins) => apart_outputs(alloc, formula, outs, ins),
            None => named_outputs(alloc, formula, outs),
        },
        None => match names.ins {
            Some(ins) => outputs_beside(alloc, formula, ins),
            None => Err(Refusal::Task(TaskFault::Controllable)),
        },
    }
}

/// Returns `outs`, if each of them is a name of `formula`.
fn named_outputs(
    alloc: Global,
    formula: &Formula,
    outs: &[ByteString],
) -> Result<Vec<ByteString>, Refusal>
    ensures outputs { IfOk result (λ made. AreOutputsBy formula.now (Some outs.now) None made.items) }
    ensures refused { IfErr result (IsUnpartedBy formula.now (Some outs.now) None) }
{
    if !are_named(formula, outs) {
        return Err(Refusal::Task(TaskFault::Controllable));
    }
    Ok(copy_of_strings(alloc, outs)?)
}

/// Returns the names of `formula` that are not among `ins`, if each of these is one.
fn outputs_beside(
    alloc: Global,
    formula: &Formula,
    ins: &[ByteString],
) -> Result<Vec<ByteString>, Refusal>
    ensures outputs { IfOk result (λ made. AreOutputsBy formula.now None (Some ins.now) made.items) }
    ensures refused { IfErr result (IsUnpartedBy formula.now None (Some ins.now)) }
{
    if !are_named(formula, ins) {
        return Err(Refusal::Task(TaskFault::Controllable));
    }
    names_without(alloc, formula.names(), ins)
}

/// Returns `outs`, if each of these and of `ins` is a name of `formula`, and each name is in exactly one of the two.
fn apart_outputs(
    alloc: Global,
    formula: &Formula,
    outs: &[ByteString],
    ins: &[ByteString],
) -> Result<Vec<ByteString>, Refusal>
    ensures outputs { IfOk result
        (λ made. AreOutputsBy formula.now (Some outs.now) (Some ins.now) made.items) }
    ensures refused { IfErr result (IsUnpartedBy formula.now (Some outs.now) (Some ins.now)) }
{
    if !are_parted(formula, outs, ins) {
        return Err(Refusal::Task(TaskFault::Controllable));
    }
    Ok(copy_of_strings(alloc, outs)?)
}

/// Whether each of `outs` and of `ins` is a name of `formula`, and each name is in exactly one of the two.
fn are_parted(formula: &Formula, outs: &[ByteString], ins: &[ByteString]) -> bool
    ensures { IsTrue result ↔ ArePartedBy formula.now (Some outs.now) (Some ins.now) }
{
    if !are_named(formula, outs) {
        return false;
    }
    if !are_named(formula, ins) {
        return false;
    }
    are_apart(formula, outs, ins)
}

/// Whether `formula` names each of `names`.
fn are_named(formula: &Formula, names: &[ByteString]) -> bool
    ensures { IsTrue result ↔ AreNamed formula.now names.now }
{
    for name in names {
        if !is_name_among(formula.names(), name.as_slice()) {
            return false;
        }
    }
    true
}

/// Whether each name of `formula` is in exactly one of `outs` and `ins`.
fn are_apart(formula: &Formula, outs: &[ByteString], ins: &[ByteString]) -> bool
    ensures { IsTrue result ↔ AreApart formula.now outs.now ins.now }
{
    for name in formula.names() {
        let is_out = is_name_among(outs, name.as_slice());
        if hold_alike(is_out, is_name_among(ins, name.as_slice())) {
            return false;
        }
    }
    true
}

/// Returns those of `names` that are not among `others`.
fn names_without(
    alloc: Global,
    names: &[ByteString],
    others: &[ByteString],
) -> Result<Vec<ByteString>, Refusal>
    ensures names { IfOk result (λ made. made.items ≡ names_without others.now names.now) }
    ensures memory { IsOkUnless result Refusal.Memory }
{
    let mut left = Vec::new(alloc);
    for name in names {
        push_unless(
            alloc,
            is_name_among(others, name.as_slice()),
            name,
            &mut left,
        )?;
    }
    Ok(left)
}

/// Appends `name`, unless it is passed over.
fn push_unless(
    alloc: Global,
    passed_over: bool,
    name: &ByteString,
    names: &mut Vec<ByteString>,
) -> Result<(), Refusal>
    ensures names { OnOk result
        (names.new.items ≡ names.old.items ++ (if not passed_over then name.now ∷ [] else [])) }
    ensures memory { IsOkUnless result Refusal.Memory }
{
    if !passed_over {
        names.push(ByteString::from_slice(alloc, name.as_slice())?)?;
    }
    Ok(())
}

/// Checks that `automaton` says the same of `outs`: if it has the item `controllable-AP:`, this lists exactly its
/// propositions of these names. Else fails with [TaskFault::Controllable] about the automaton, which is the input, as
/// it does if the item is refused.
pub(crate) fn check_outputs(
    alloc: Global,
    outs: &[ByteString],
    automaton: &Automaton,
) -> Result<(), Refused>
    ensures outputs { OnOk result (AreOutputs outs.now automaton.now) }
    ensures refused { IfErr result (AreOutputsRefused outs.now automaton.now) }
{
    let listed = match controlled_propositions(alloc, automaton) {
        Ok(numbers) => numbers,
        Err(refusal) => return Err(Refused::of(Which::Input, refusal)),
    };
    let names = automaton.propositions();
    if has_controllable_item(automaton) && !are_listed_alike(names, listed.as_slice(), outs) {
        let misnamed = Refusal::Task(TaskFault::Controllable);
        return Err(Refused::of(Which::Input, misnamed));
    }
    Ok(())
}

/// Whether `listed` are the numbers of exactly those of `names` that are among `outs`. Other numbers do not count.
fn are_listed_alike(names: &[ByteString], listed: &[u32], outs: &[ByteString]) -> bool
    ensures { IsTrue result ↔ AreListedAlike names.now listed.now outs.now }
{
    for p in 0..names.len() {
        let named = is_name_among(outs, names[p].as_slice());
        if !hold_alike(is_listed(listed, p), named) {
            return false;
        }
    }
    true
}

/// Whether both hold or neither does.
fn hold_alike(one: bool, other: bool) -> bool
    ensures { result ≡ hold_alike one other }
{
    if one { other } else { !other }
}
