ghost use Rattle.std.specs.Prelude.{◌≡◌, All, IfErr, IfOk};
ghost use Rattle.omega_ltl_determinization.specs.Deterministic.{IsWellFormed};
ghost use Rattle.omega_ltl_determinization.specs.Refusing.{IsLarge};

use crate::combination::Combination;
use crate::leaf::Leaf;
use crate::product_search::explore;
use omega_ltl_determinization::{
    DeterministicAutomaton, DeterministicBuilder, MOST_NAMES, smaller_automaton,
};
use omega_text::{Refusal, TaskFault};
use std::alloc::Global;

/// Returns a deterministic parity automaton that is to accept the words of which a Boolean combination of leaves holds,
/// over letters that give truth values to `names` names.
///
/// A state has the state of each leaf on which the truth still depends, and a leaf of the Zielonka tree of what is left
/// of the condition (Casares, Colcombet, Fijalkow 2021). Colours are lowered, and states are dropped and joined, as
/// [`smaller_automaton`] does. Nothing is proved of the words, which the user judges.
///
/// Fails with [`TaskFault::TooLarge`] if there are over [`MOST_NAMES`] names, over [`crate::MOST_COLOURS`] colours of
/// leaves that tell words apart, over [`omega_ltl_determinization::MOST_STATES`] states, or if letters or Zielonka
/// trees take too much.
pub fn product(
    alloc: Global,
    names: u32,
    leaves: &[Leaf],
    combination: &[Combination],
) -> Result<DeterministicAutomaton, Refusal>
    ensures automaton { IfOk result IsWellFormed }
    ensures names { IfOk result (λ automaton. automaton.names ≡ names) }
    ensures err { IfErr result IsLarge }
{
    if names > MOST_NAMES {
        return Err(Refusal::Task(TaskFault::TooLarge));
    }
    let mut builder = DeterministicBuilder::new(alloc, names);
    explore(alloc, names, leaves, combination, &mut builder)?;
    smaller_automaton(alloc, builder.finish(names, 0)?)
}
