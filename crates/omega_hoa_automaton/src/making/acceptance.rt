ghost use Rattle.std.specs.Prelude.{◌≡◌, option_and_then, IfErr, IfOk};
ghost use Rattle.omega_hoa_acceptance.specs.Meaning.{acc_meant};
ghost use Rattle.omega_text.specs.Cases.{IsMemory};
ghost use Rattle.omega_hoa_automaton.specs.private.layout.Draft.{IsSoundAcceptance};

use omega_hoa_acceptance::{Acc, RawAcc};
use omega_text::Refusal;
use std::alloc::Global;

/// Returns the meaning of a formula that is there and has no fault.
pub(crate) fn acceptance_of(alloc: Global, written: &Option<RawAcc>) -> Result<Acc, Refusal>
    requires { IsSoundAcceptance written.now }
    ensures ok { IfOk result (λ acceptance. option_and_then acc_meant written.now ≡ Some acceptance) }
    ensures err { IfErr result IsMemory }
{
    match written {
        Some(formula) => formula.formula(alloc),
        None => unreachable!(),
    }
}
