ghost use Rattle.std.specs.Prelude.{◌≡◌, None, IfErr, OnOk};
ghost use Rattle.omega_hoa_automaton.specs.private.layout.Order.{IsLastFault, fault_found, last_fault};

use crate::judging::findings::{Findings, findings_of_states};
use crate::limits::MOST_TOTAL_SIZE;
use crate::making::Definitions;
use omega_hoa_syntax::RawState;
use omega_text::{AutomatonFault, Refusal};
use std::alloc::Global;

/// Refuses by the least of the faults 27 to 33 that applies. No definition has [AutomatonFault::Alias]; `late` is the
/// least of 28 to 31, and `acceptance` says whether an acceptance is too deep.
///
/// Each label is measured once.
pub(crate) fn judge_last(
    alloc: Global,
    definitions: &Definitions,
    states: &[RawState],
    late: Option<AutomatonFault>,
    acceptance: bool,
) -> Result<(), Refusal>
    ensures ok { OnOk result (last_fault definitions.now states.now late acceptance ≡ None) }
    ensures err { IfErr result (IsLastFault definitions.now states.now late acceptance) }
{
    let found = findings_of_states(alloc, states, &definitions.aliases)?;
    match least_fault(definitions, found, late, acceptance) {
        Some(fault) => Err(Refusal::Automaton(fault)),
        None => Ok(()),
    }
}

/// Returns the least of the faults 27 to 33 that applies, given the faults `found` in labels.
fn least_fault(
    definitions: &Definitions,
    found: Findings,
    late: Option<AutomatonFault>,
    acceptance: bool,
) -> Option<AutomatonFault>
    ensures { result ≡ fault_found definitions.now found late acceptance }
{
    if found.undefined {
        return Some(AutomatonFault::Alias);
    }
    if late.is_some() {
        return late;
    }
    if acceptance || definitions.deep || found.deep {
        return Some(AutomatonFault::TooDeep);
    }
    if definitions.large || found.large || MOST_TOTAL_SIZE < found.size {
        return Some(AutomatonFault::Expansion);
    }
    None
}
