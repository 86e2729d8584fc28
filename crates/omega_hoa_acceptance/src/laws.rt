//! Laws of all acceptance formulas and kinds. Each function does nothing and states one law.

ghost use Rattle.std.specs.Prelude.{◌≡◌};
ghost use Rattle.std.specs.Bool.{Decides};
ghost use Rattle.omega_hoa_acceptance.specs.Acceptance.{AccTree};
ghost use Rattle.omega_hoa_acceptance.specs.KindLaws.{BuchiIsEverySet, ParityIsPriority};
ghost use Rattle.omega_hoa_acceptance.specs.Raw.{RawAccTree};
ghost use Rattle.omega_hoa_acceptance.specs.Reading.{FormulasAreOne};

use crate::formula::Acc;
use crate::raw::RawAcc;

/// States that at most one acceptance formula is read from any tokens, and that at most one rest is left.
pub fn formulas_are_one()
    ensures { FormulasAreOne }
{}

/// States that `==` of two acceptance formulas, with their meaning or as they are written, decides whether they are the
/// same tree.
pub fn equal_formulas_are_equal_trees()
    ensures formulas { (one other : AccTree)
        → Decides (⟦<Acc as PartialEq>⟧.eq one other) (one ≡ other) }
    ensures raw_formulas { (one other : RawAccTree)
        → Decides (⟦<RawAcc as PartialEq>⟧.eq one other) (one ≡ other) }
{}

/// States that a parity formula holds of mark sets exactly if the greatest of their priorities is even.
pub fn parity_is_priority()
    ensures { ParityIsPriority }
{}

/// States that a generalized Büchi formula holds of mark sets exactly if every set occurs in one of them.
pub fn buchi_is_every_set()
    ensures { BuchiIsEverySet }
{}
