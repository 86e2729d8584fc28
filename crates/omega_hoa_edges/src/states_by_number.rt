ghost use Rattle.std.specs.Prelude.{◌≡◌, ◌++◌, ◌∷◌, [], false, nat_eq};
ghost use Rattle.std.specs.Prelude.{IfNone, IfOk, IfSome, IsOkUnless, OnOk};
ghost use Rattle.std.specs.List.{list_any};
ghost use Rattle.omega_hoa_edges.specs.AutomatonLabels.{defined_numbers};

use indexmap::IndexSet;
use omega_hoa_automaton::{Automaton, State};
use omega_text::Refusal;
use std::alloc::Global;
use std::marker::Model;

/// The states of an automaton, found by their numbers. Contracts see the automaton.
#[derive(Drop)]
pub struct StatesByNumber<'a> {
    automaton: &'a Automaton,
    /// The numbers of the states that the body defines, in the order written.
    numbers: IndexSet<u32>,
}

impl<'a> Model for StatesByNumber<'a> {
    ghost use Rattle.std.specs.Prelude.{◌≡◌};
    ghost use Rattle.omega_hoa_automaton.specs.Automaton.{Description};
    ghost use Rattle.omega_hoa_automaton.specs.contracts.automaton.Automaton as description;
    ghost use Rattle.omega_hoa_edges.specs.AutomatonLabels.{defined_numbers};

    ghost Value = { Description };

    ghost coded = { description.the_row.coded };

    ghost view = { λ s. s.automaton.now };

    ghost invariant = { λ s. s.numbers.keys ≡ defined_numbers s.automaton.now };
}

impl<'a> StatesByNumber<'a> {
    ghost use Rattle.omega_hoa_edges.specs.AutomatonLabels.{state_at, undefined};

    /// Takes the states of `automaton`. Linear in those that the body defines.
    pub fn of(alloc: Global, automaton: &'a Automaton) -> Result<StatesByNumber<'a>, Refusal>
        ensures states { IfOk result (λ states. states ≡ automaton.entry.now) }
        ensures memory { IsOkUnless result Refusal.Memory }
    {
        let numbers = numbers_of(alloc, automaton)?;
        Ok(StatesByNumber { automaton, numbers })
    }

    /// Returns the state with the number `number`, or none if the body does not define it. Takes constant time on
    /// average.
    pub fn find(&self, number: u32) -> Option<&State>
        ensures some { IfSome result (λ state. state.now ≡ state_at self.now number) }
        ensures none { IfNone result (state_at self.now number ≡ undefined number) }
    {
        match self.numbers.get_index_of(&number) {
            Some(place) => Some(&self.automaton.defined()[place]),
            None => None,
        }
    }
}

/// Returns the numbers of the states that `automaton` defines, in the order written.
fn numbers_of(alloc: Global, automaton: &Automaton) -> Result<IndexSet<u32>, Refusal>
    ensures numbers { IfOk result (λ numbers. numbers.keys ≡ defined_numbers automaton.now) }
    ensures memory { IsOkUnless result Refusal.Memory }
{
    automaton.keeps_limits();
    let mut numbers = IndexSet::new(alloc);
    for state in automaton.defined() {
        add(&mut numbers, state.number)?;
    }
    Ok(numbers)
}

/// Appends `number`, which the set does not have.
fn add(numbers: &mut IndexSet<u32>, number: u32) -> Result<(), Refusal>
    requires further { list_any (nat_eq number) numbers.old.keys ≡ false }
    ensures numbers { OnOk result (numbers.new.keys ≡ numbers.old.keys ++ number ∷ []) }
    ensures memory { IsOkUnless result Refusal.Memory }
{
    numbers.insert(number)?;
    Ok(())
}
