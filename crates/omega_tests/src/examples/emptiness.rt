//! Reads an automaton, and searches it for an accepting lasso.
ghost use Rattle.std.specs.Prelude.{IfOk};
ghost use Rattle.omega_hoa_automaton.specs.Automaton.{Description};
ghost use Rattle.omega_lang_runs.specs.Verdict.{IsVerdict};
ghost use Rattle.omega_hoa.specs.Alone.{IsAutomatonText};

use omega_hoa::{Refusal, read_one};
use omega_lang_lasso_search::{Verdict, lasso};
use std::alloc::Global;

/// Whether the automaton of a text in the Hanoi format accepts nothing, or a lasso that it accepts.
pub fn lasso_in(alloc: Global, text: &str) -> Result<Verdict, Refusal>
    ensures verdict { IfOk result
        (λ verdict. (a : Description) × IsAutomatonText text.now a × IsVerdict a verdict) }
{
    let automaton = read_one(alloc, text.as_bytes())?;
    lasso(alloc, &automaton)
}

#[cfg(test)]
mod tests {
    use super::*;
    use std::test::Fail;

    // Edge 0 stays in state 0, edge 1 leads to state 1, and edge 2 stays there, in set 0.
    const AUTOMATON: &str = "HOA: v1 States: 2 Start: 0 acc-name: Buchi Acceptance: 1 Inf(0)
        --BODY-- State: 0 [t] 0 [t] 1 State: 1 [t] 1 {0} --END--";

    #[test]
    fn edge_2_is_taken_for_ever(rt: HostRuntime) -> Result<(), Fail> {
        match lasso_in(rt.alloc(), AUTOMATON)? {
            Verdict::Empty => assert!(rt; false, "the automaton is said to be empty"),
            // The stem leads to state 1 by edge 1, perhaps round edge 2 already.
            Verdict::Lasso { stem: _, cycle } => {
                assert_eq!(rt; cycle.as_slice(), [2].as_slice());
            }
        }
        Ok(())
    }
}
