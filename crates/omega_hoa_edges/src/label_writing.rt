//! Labels as a text writes them, with parentheses only if an operator needs them.

ghost use Rattle.std.specs.Prelude.{◌≡◌, ◌<◌, ◌≤◌, IfErr, IfOk, OnOk};
ghost use Rattle.omega_hoa_expression.specs.Limits.{most_depth};
ghost use Rattle.omega_hoa_label.specs.Writing.{label_written};
ghost use Rattle.omega_hoa_label.specs.Raw.{raw_depth};
ghost use Rattle.omega_hoa_edges.specs.Fitting.{IsLarge};

use omega_hoa_label::{Label, RawLabel};
use omega_text::{Refusal, TaskFault};
use std::alloc::Global;

/// Returns the written form of a label. Fails with [TaskFault::TooLarge] if it is deeper than `MOST_DEPTH`. Linear in
/// the label.
pub fn written_form(alloc: Global, label: &Label) -> Result<RawLabel, Refusal>
    ensures shallow { OnOk result (raw_depth (label_written label.now) ≤ most_depth) }
    ensures ok { IfOk result (λ raw. raw ≡ label_written label.now) }
    ensures err { IfErr result (IsLarge (most_depth < raw_depth (label_written label.now))) }
{
    match label.canonical_form(alloc) {
        Ok(raw) => Ok(raw),
        Err(Refusal::Automaton(_)) => Err(Refusal::Task(TaskFault::TooLarge)),
        Err(refusal) => Err(refusal),
    }
}
