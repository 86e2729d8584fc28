//! Whether an automaton can be read as a controller.

ghost use Rattle.std.specs.Prelude.{◌↔◌, IfErr, IsTrue, OnOk};
ghost use Rattle.omega_synth_check.specs.Refusing.{AcceptsAll, IsFormRefusal, IsReadable};

use omega_hoa_acceptance::is_buchi;
use omega_hoa_automaton::{Automaton, has_universal_branching};
use omega_text::{Refusal, TaskFault};

/// Judges that `controller` can be read as a controller. Fails with [TaskFault::UniversalBranch] if a start or an edge
/// lists several states, and with [TaskFault::NotParity] unless its acceptance is `all`.
pub fn judge_form(controller: &Automaton) -> Result<(), Refusal>
    ensures readable { OnOk result (IsReadable controller.now) }
    ensures refused { IfErr result (IsFormRefusal controller.now) }
{
    if has_universal_branching(controller) {
        return Err(Refusal::Task(TaskFault::UniversalBranch));
    }
    if accepts_all(controller) {
        Ok(())
    } else {
        Err(Refusal::Task(TaskFault::NotParity))
    }
}

/// Whether the acceptance of `controller` is `all`: it has no sets, and its formula is `t`.
fn accepts_all(controller: &Automaton) -> bool
    ensures { IsTrue result ↔ AcceptsAll controller.now }
{
    controller.set_count() == 0 && is_buchi(0, controller.acceptance())
}
