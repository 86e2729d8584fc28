//! The acceptance of a complement, as a text writes it.

ghost use Rattle.std.specs.Prelude.{◌≡◌, ◌<◌, IfErr, IfOk};
ghost use Rattle.omega_hoa_expression.specs.Limits.{most_depth};
ghost use Rattle.omega_hoa_acceptance.specs.Raw.{raw_acc_depth};
ghost use Rattle.omega_lang_complement.specs.Written.{written_dual};
ghost use Rattle.omega_hoa_edges.specs.Fitting.{IsLarge};

use omega_hoa_acceptance::RawAcc;
use omega_hoa_automaton::Automaton;
use omega_hoa_edges::written_formula;
use omega_text::Refusal;
use std::alloc::Global;

/// Returns the dual of the acceptance of `automaton`. Fails with [TaskFault::TooLarge] if its written form is deeper
/// than `MOST_DEPTH`.
pub(crate) fn dual_acceptance(alloc: Global, automaton: &Automaton) -> Result<RawAcc, Refusal>
    ensures dual { IfOk result (λ raw. raw ≡ written_dual automaton.now) }
    ensures err { IfErr result (IsLarge (most_depth < raw_acc_depth (written_dual automaton.now))) }
{
    let dual = automaton.acceptance().dual(alloc)?;
    written_formula(alloc, &dual)
}
