//! Reads a specification, and asks for a controller.
ghost use Rattle.std.specs.Prelude.{ℕ, List, IfOk};
ghost use Rattle.omega_hoa_automaton.specs.Automaton.{Description};
ghost use Rattle.omega_synth_controllers.specs.Controllable.{IsControlled};
ghost use Rattle.omega_hoa.specs.Alone.{IsAutomatonText};
ghost use Rattle.omega_synth_realize.specs.Realizing.{IsRealizability};

use omega_hoa::{Refusal, read_one};
use omega_hoa_automaton::Automaton;
use omega_synth_controllers::controlled_propositions;
use omega_synth_realize::{Realizability, realize};
use std::alloc::Global;

/// Returns a controller for the automaton of a text in the Hanoi format, or a counter-strategy, where the system
/// controls the propositions that its item `controllable-AP:` lists.
pub fn realizability_in(alloc: Global, text: &str) -> Result<Realizability, Refusal>
    ensures realizability { IfOk result (λ answer. (a : Description) × IsAutomatonText text.now a
        × ((controlled : List ℕ) × IsControlled a controlled × IsRealizability a controlled answer)) }
{
    let automaton = read_one(alloc, text.as_bytes())?;
    realizability_of(alloc, &automaton)
}

fn realizability_of(alloc: Global, automaton: &Automaton) -> Result<Realizability, Refusal>
    ensures realizability { IfOk result (λ answer. (controlled : List ℕ)
        × IsControlled automaton.now controlled × IsRealizability automaton.now controlled answer) }
{
    let controlled = controlled_propositions(alloc, automaton)?;
    realize(alloc, automaton, controlled.as_slice())
}

#[cfg(test)]
mod tests {
    use super::*;
    use omega_text::Numbers;
    use std::test::Fail;

    // Each round serves one of two goals, and both are wanted again and again: the system has to alternate.
    const GOALS: &str = "HOA: v1 States: 2 Start: 0 AP: 1 \"s\" controllable-AP: 0
        acc-name: parity max even 3 Acceptance: 3 Inf(2) | (Fin(1) & Inf(0))
        --BODY-- State: 0 [0] 1 [!0] 0 {1} State: 1 [0] 0 {2} [!0] 1 {1} --END--";

    #[test]
    fn edges_0_and_2_are_kept(rt: HostRuntime) -> Result<(), Fail> {
        match realizability_in(rt.alloc(), GOALS)? {
            Realizability::Realizable { kept } => {
                assert_eq!(rt; kept.as_slice(), [0, 2].as_slice());
            }
            Realizability::Unrealizable { .. } => assert!(rt; false, "there is a controller"),
        }
        Ok(())
    }

    // The system has to say by `s` whether the environment gives `e` in the next round.
    const GUESS: &str = "HOA: v1 States: 4 Start: 0 AP: 2 \"e\" \"s\" controllable-AP: 1
        acc-name: parity max even 1 Acceptance: 1 Inf(0)
        --BODY-- State: 0 [1] 1 [!1] 2 State: 1 [0] 3 State: 2 [!0] 3 State: 3 [t] 3 {0} --END--";

    fn is_letter(letters: &[Numbers], state: usize, held: &[u32]) -> bool {
        match letters.get(state) {
            Some(letter) => letter.as_slice() == held,
            None => false,
        }
    }

    // In state 1 the environment does not give `e`, which was guessed there, and in state 2 it does.
    #[test]
    fn what_was_not_guessed_is_given(rt: HostRuntime) -> Result<(), Fail> {
        let answer = realizability_in(rt.alloc(), GUESS)?;
        match &answer {
            Realizability::Realizable { .. } => assert!(rt; false, "there is no controller"),
            Realizability::Unrealizable { kept, letters } => {
                assert_eq!(rt; kept.as_slice(), [0, 1].as_slice());
                let (one, two) = (
                    is_letter(letters.as_slice(), 1, &[]),
                    is_letter(letters.as_slice(), 2, &[0]),
                );
                assert!(rt; one && two);
            }
        }
        Ok(())
    }
}
