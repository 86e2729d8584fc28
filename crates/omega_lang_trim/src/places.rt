//! The places of states: among the defined ones, or among those that stay.

ghost use Rattle.std.specs.Prelude.{◌≡◌, ◌++◌, ◌∷◌, [], false, nat_eq, IfOk, OnOk, IsOkUnless};
ghost use Rattle.std.specs.List.{list_any, position_or_len};
ghost use Rattle.omega_hoa_edges.specs.AutomatonLabels.{defined_numbers};
ghost use Rattle.omega_lang_trim.specs.private.Placed.{IsFew};

use indexmap::IndexSet;
use omega_hoa_automaton::Automaton;
use omega_text::Refusal;
use std::alloc::Global;

/// Returns the numbers of the states that `automaton` defines, in the order written. Fails with [Refusal::Memory] also
/// if there are over 2^32 - 2 of them.
pub(crate) fn places_of(alloc: Global, automaton: &Automaton) -> Result<IndexSet<u32>, Refusal>
    ensures numbers { IfOk result (λ numbers. numbers.keys ≡ defined_numbers automaton.now) }
    ensures few { IfOk result (λ numbers. IsFew numbers.keys) }
    ensures memory { IsOkUnless result Refusal.Memory }
{
    let mut numbers = IndexSet::new(alloc);
    match add_defined(&mut numbers, automaton) {
        Ok(()) => Ok(numbers),
        Err(refusal) => Err(refusal),
    }
}

/// Appends the numbers of the states that `automaton` defines to an empty set. Fails with [Refusal::Memory] also if
/// there are over 2^32 - 2 of them.
fn add_defined(numbers: &mut IndexSet<u32>, automaton: &Automaton) -> Result<(), Refusal>
    requires { numbers.old.keys ≡ [] }
    ensures numbers { OnOk result (numbers.new.keys ≡ defined_numbers automaton.now) }
    ensures few { OnOk result (IsFew numbers.new.keys) }
    ensures memory { IsOkUnless result Refusal.Memory }
{
    automaton.keeps_limits();
    for state in automaton.defined() {
        add(numbers, state.number)?;
    }
    if numbers.len() < u32::MAX as usize {
        Ok(())
    } else {
        Err(Refusal::Memory)
    }
}

/// Appends `number`, which the set does not have.
fn add(numbers: &mut IndexSet<u32>, number: u32) -> Result<(), Refusal>
    requires further { list_any (nat_eq number) numbers.old.keys ≡ false }
    ensures numbers { OnOk result (numbers.new.keys ≡ numbers.old.keys ++ number ∷ []) }
    ensures memory { IsOkUnless result Refusal.Memory }
{
    numbers.insert(number)?;
    Ok(())
}

/// Returns the place of `number` among `numbers`, or their count if it is not among them.
pub(crate) fn place_in(numbers: &IndexSet<u32>, number: u32) -> u32
    requires { IsFew numbers.now.keys }
    ensures { result ≡ position_or_len (nat_eq number) numbers.now.keys }
{
    match numbers.get_index_of(&number) {
        Some(place) => place as u32,
        None => numbers.len() as u32,
    }
}
