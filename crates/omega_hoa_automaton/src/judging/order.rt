ghost use Rattle.std.specs.Prelude.{◌≡◌, IfErr, IfOk};
ghost use Rattle.omega_text.specs.Cases.{IsMemory};
ghost use Rattle.omega_hoa_automaton.specs.private.layout.Body.{AreCountsOf, IsFoundOfStates};
ghost use Rattle.omega_hoa_automaton.specs.private.layout.Order.{early_fault as earliest};
ghost use Rattle.omega_hoa_automaton.specs.private.layout.Order.{late_fault as latest};

use crate::judging::acceptance::has_wrong_atom;
use crate::judging::body::BodyFound;
use crate::judging::counts::Counts;
use crate::judging::header::{has_repeated_item, has_unknown_capital, lacks_acceptance};
use crate::judging::propositions::has_wrong_proposition;
use crate::judging::repeats::has_state_twice;
use crate::judging::sets::has_set_out_of_range;
use crate::judging::states::has_state_out_of_range;
use crate::judging::version::has_other_version;
use omega_hoa_syntax::RawAutomaton;
use omega_text::{AutomatonFault, Refusal};
use std::alloc::Global;

/// Returns the least of the faults 20 to 26 that applies, or none.
pub(crate) fn early_fault(
    alloc: Global,
    raw: &RawAutomaton,
    counts: Counts,
    found: BodyFound,
) -> Result<Option<AutomatonFault>, Refusal>
    requires counts { AreCountsOf raw.now counts }
    requires found { IsFoundOfStates counts raw.now.states found }
    ensures ok { IfOk result (λ fault. fault ≡ earliest raw.now) }
    ensures err { IfErr result IsMemory }
{
    if has_other_version(raw) {
        return Ok(Some(AutomatonFault::Version));
    }
    if has_repeated_item(raw) {
        return Ok(Some(AutomatonFault::RepeatedHeader));
    }
    if lacks_acceptance(raw) {
        return Ok(Some(AutomatonFault::MissingAcceptance));
    }
    if has_unknown_capital(raw) {
        return Ok(Some(AutomatonFault::UnknownHeader));
    }
    if has_state_out_of_range(raw, counts, found) {
        return Ok(Some(AutomatonFault::StateRange));
    }
    if has_set_out_of_range(raw, counts, found) {
        return Ok(Some(AutomatonFault::SetRange));
    }
    if has_wrong_proposition(alloc, raw, counts, found)? {
        return Ok(Some(AutomatonFault::Proposition));
    }
    Ok(None)
}

/// Returns the least of the faults 28 to 31 that applies, or none.
#[tactic(auto, unfolding(crate::specs::Faults::has_mixed_labels, crate::specs::Faults::has_wrong_edge_count))]
pub(crate) fn late_fault(
    alloc: Global,
    raw: &RawAutomaton,
    counts: Counts,
    found: BodyFound,
) -> Result<Option<AutomatonFault>, Refusal>
    requires counts { AreCountsOf raw.now counts }
    requires found { IsFoundOfStates counts raw.now.states found }
    ensures ok { IfOk result (λ fault. fault ≡ latest raw.now) }
    ensures err { IfErr result IsMemory }
{
    if has_state_twice(alloc, raw)? {
        return Ok(Some(AutomatonFault::StateTwice));
    }
    if found.mixed {
        return Ok(Some(AutomatonFault::MixedLabels));
    }
    if found.miscounted {
        return Ok(Some(AutomatonFault::ImplicitCount));
    }
    if has_wrong_atom(alloc, raw)? {
        return Ok(Some(AutomatonFault::AcceptanceAtom));
    }
    Ok(None)
}
