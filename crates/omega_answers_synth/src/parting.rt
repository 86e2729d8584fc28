//! Which propositions the system controls.

ghost use Rattle.std.specs.Prelude.{◌≡◌, ◌↔◌, ◌++◌, [], IfErr, IfOk, IsOkUnless, IsTrue, OnOk, slice_index_or};
ghost use Rattle.omega_graph.specs.Graph.{listed};
ghost use Rattle.omega_answers_synth.specs.Parting.{AreAlike, AreSystemNames, IsPartingRefused, names_at};
ghost use Rattle.omega_answers_synth.specs.private.Alike.{ArePartedAlike, IsAlike, is_unlike};

use omega_hoa_automaton::{Automaton, Refusal};
use omega_io::{Refused, Which};
use omega_synth_controllers::{controlled_propositions, has_controllable_item};
use omega_text::{ByteString, Numbers, TaskFault};
use std::alloc::Global;

/// The numbers of the propositions that the system controls, in a specification and in another automaton.
#[derive(Drop)]
pub(crate) struct PartedNumbers {
    pub(crate) stated: Numbers,
    pub(crate) controlled: Numbers,
}

/// Returns the propositions that the system controls, of `specification` and of `other`.
///
/// Fails with [TaskFault::Controllable] about the specification if its item `controllable-AP:` is refused. Else fails
/// so about the other if its item is, or if the specification has the item and the two differ on a name that both have.
/// At most the product of the counts of propositions.
pub(crate) fn parted_numbers(
    alloc: Global,
    specification: &Automaton,
    other: &Automaton,
) -> Result<PartedNumbers, Refused>
    ensures parted { IfOk result (ArePartedAlike specification.now other.now) }
    ensures refused { IfErr result (IsPartingRefused specification.now other.now) }
{
    let stated = match controlled_propositions(alloc, specification) {
        Ok(numbers) => numbers,
        Err(refusal) => return Err(Refused::of(Which::File, refusal)),
    };
    let controlled = match controlled_propositions(alloc, other) {
        Ok(numbers) => numbers,
        Err(refusal) => return Err(Refused::of(Which::Input, refusal)),
    };
    let names = specification.propositions();
    let own_names = other.propositions();
    if has_controllable_item(specification)
        && !are_alike(names, own_names, stated.as_slice(), controlled.as_slice())
    {
        let refusal = Refusal::Task(TaskFault::Controllable);
        return Err(Refused::of(Which::Input, refusal));
    }
    Ok(PartedNumbers { stated, controlled })
}

/// Returns the names of the propositions that the system controls: those of `specification` and those of `other`.
pub(crate) fn system_names(
    alloc: Global,
    specification: &Automaton,
    other: &Automaton,
    parted: &PartedNumbers,
) -> Result<Vec<ByteString>, Refusal>
    requires { ArePartedAlike specification.now other.now parted.now }
    ensures names { IfOk result (λ names. AreSystemNames specification.now other.now names.items) }
    ensures memory { IsOkUnless result Refusal.Memory }
{
    let mut names = Vec::new(alloc);
    append_names(
        specification.propositions(),
        parted.stated.as_slice(),
        &mut names,
    )?;
    append_names(
        other.propositions(),
        parted.controlled.as_slice(),
        &mut names,
    )?;
    Ok(names)
}

/// Appends those of `names` that stand at these `places`; an empty one past the last.
fn append_names(
    names: &[ByteString],
    places: &[u32],
    out: &mut Vec<ByteString>,
) -> Result<(), Refusal>
    ensures names { OnOk result (out.new.items ≡ out.old.items ++ names_at names.now places.now) }
    ensures memory { IsOkUnless result Refusal.Memory }
{
    let alloc = *out.allocator();
    for place in places {
        let name = name_at(alloc, names, *place)?;
        out.push(name)?;
    }
    Ok(())
}

/// Returns the name at `place`, an empty one past the last.
fn name_at(alloc: Global, names: &[ByteString], place: u32) -> Result<ByteString, Refusal>
    ensures name { IfOk result (λ name. name ≡ slice_index_or names.now place []) }
    ensures memory { IsOkUnless result Refusal.Memory }
{
    match names.get(place as usize) {
        None => Ok(ByteString::new()),
        Some(name) => {
            let copy = ByteString::from_slice(alloc, name.as_slice())?;
            Ok(copy)
        }
    }
}

/// Whether the system controls propositions of one name both among `ones` and among `others`, or in neither. It
/// controls those of `ones` with the numbers `controlled`, and those of `others` with the numbers `also_controlled`.
fn are_alike(
    ones: &[ByteString],
    others: &[ByteString],
    controlled: &[u32],
    also_controlled: &[u32],
) -> bool
    ensures { IsTrue result ↔ AreAlike ones.now others.now controlled.now also_controlled.now }
{
    for p in 0..ones.len() {
        if !is_alike(
            ones[p].as_slice(),
            others,
            is_listed(controlled, p),
            also_controlled,
        ) {
            return false;
        }
    }
    true
}

/// Whether the system controls the propositions of this `name` among `others` exactly if it is `controlled`.
fn is_alike(name: &[u8], others: &[ByteString], controlled: bool, also_controlled: &[u32]) -> bool
    ensures { IsTrue result ↔ IsAlike name.now others.now controlled also_controlled.now }
{
    for q in 0..others.len() {
        if is_unlike(
            others[q].as_slice(),
            name,
            is_listed(also_controlled, q),
            controlled,
        ) {
            return false;
        }
    }
    true
}

/// Whether `other` is `name`, and is controlled where that is not, or the other way round.
fn is_unlike(other: &[u8], name: &[u8], other_controlled: bool, controlled: bool) -> bool
    ensures { result ≡ is_unlike other.now name.now other_controlled controlled }
{
    if controlled {
        other == name && !other_controlled
    } else {
        other == name && other_controlled
    }
}

/// Whether `number` is one of `numbers`.
pub(crate) fn is_listed(numbers: &[u32], number: usize) -> bool
    ensures { result ≡ listed numbers.now number }
{
    numbers.iter().any(|other| *other as usize == number)
}
