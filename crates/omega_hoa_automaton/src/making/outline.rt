ghost use Rattle.std.specs.Prelude.{◌≡◌, None, IfErr, IfOk};
ghost use Rattle.omega_hoa_automaton.specs.Meaning.{IsMeaningless};
ghost use Rattle.omega_hoa_automaton.specs.private.layout.Body.{AreCountsOf, IsFoundOfStates};
ghost use Rattle.omega_hoa_automaton.specs.private.layout.Draft.{IsOutlineOf};
ghost use Rattle.omega_hoa_automaton.specs.private.layout.Order.{early_fault as earliest};

use crate::judging::{
    BodyFound, Counts, counts_of, early_fault, found_of_states, has_deep_acceptance, late_fault,
};
use omega_hoa_syntax::RawAutomaton;
use omega_text::{AutomatonFault, Refusal};
use std::alloc::Global;

/// The judgement of an automaton that is written before its aliases are looked up.
#[derive(Clone, Copy)]
pub(crate) struct HeaderOutline {
    /// The least of the faults 28 to 31 that applies.
    pub late: Option<AutomatonFault>,
    /// Whether an acceptance is too deep.
    pub deep: bool,
    pub state_count: u32,
    pub set_count: u32,
}

/// Judges an automaton that is written up to its aliases. Refused with its least `AutomatonFault` before
/// [AutomatonFault::Alias], or with [Refusal::Memory].
pub(crate) fn outline_of(alloc: Global, raw: &RawAutomaton) -> Result<HeaderOutline, Refusal>
    ensures ok { IfOk result (IsOutlineOf raw.now) }
    ensures err { IfErr result (IsMeaningless raw.now) }
{
    let counts = counts_of(raw);
    let found = found_of_states(raw.states.as_slice(), counts);
    let fault = early_fault(alloc, raw, counts, found)?;
    match fault {
        Some(fault) => Err(Refusal::Automaton(fault)),
        None => later_outline(alloc, raw, counts, found),
    }
}

/// Judges the rest, if none of the faults before [AutomatonFault::Alias] applies.
fn later_outline(
    alloc: Global,
    raw: &RawAutomaton,
    counts: Counts,
    found: BodyFound,
) -> Result<HeaderOutline, Refusal>
    requires early { earliest raw.now ≡ None }
    requires counts { AreCountsOf raw.now counts }
    requires found { IsFoundOfStates counts raw.now.states found }
    ensures ok { IfOk result (IsOutlineOf raw.now) }
    ensures err { IfErr result (IsMeaningless raw.now) }
{
    let late = late_fault(alloc, raw, counts, found)?;
    Ok(HeaderOutline {
        late,
        deep: has_deep_acceptance(raw.items.as_slice()),
        state_count: counts.states,
        set_count: counts.sets,
    })
}
