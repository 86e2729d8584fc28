//! Steps of a search: what to do at each place, with the places that follow.

ghost use Rattle.std.specs.Prelude.{◌≡◌, ◌<◌, length, IfOk, IsOkUnless, OnOk};
ghost use Rattle.omega_hoa_satisfiable.specs.private.Leading.{ArePlanned, IsEnd, IsKept, LeadsBy, MayFollow};
ghost use Rattle.omega_hoa_satisfiable.specs.private.Visits.{VisitsBy, visits};

use omega_text::Refusal;
use std::alloc::Global;

/// A literal that is tried: the search goes on at `next`, or at `otherwise` if the literal is false or what follows
/// fails.
#[derive(Clone, Copy)]
pub(crate) struct Literal {
    pub(crate) proposition: u32,
    /// Whether the literal is the proposition itself; otherwise it is its negation.
    pub(crate) sign: bool,
    /// The place at which the search goes on.
    pub(crate) next: usize,
    /// The place at which it goes on otherwise.
    pub(crate) otherwise: usize,
    /// Whether each valuation that leads to the end from `otherwise` also does from `next`. Then the search may go on
    /// at `otherwise` under the opposite of the literal.
    pub(crate) whole: bool,
}

/// What to do at a place. The places that it names come before it.
#[derive(Clone, Copy)]
pub(crate) enum Step {
    /// Nothing is left to do.
    Done,
    /// The branch fails.
    Stuck,
    /// The search goes on at one place, or else at the other.
    Either(usize, usize),
    Try(Literal),
}

/// The place at which a branch fails.
pub(crate) const STUCK: usize = 0;

/// The place at which nothing is left to do.
pub(crate) const DONE: usize = 1;

/// Returns the two steps that each search has.
pub(crate) fn first_steps(alloc: Global) -> Result<Vec<Step>, Refusal>
    ensures planned { IfOk result (λ steps. ArePlanned steps.items) }
    ensures done { IfOk result (λ steps. IsEnd steps.items 1) }
    ensures done_visited { IfOk result (λ steps. visits steps.items 1 ≡ 1) }
    ensures two { IfOk result (λ steps. length steps.items ≡ 2) }
    ensures memory { IsOkUnless result Refusal.Memory }
{
    let mut steps = Vec::new(alloc);
    steps.push(Step::Stuck)?;
    steps.push(Step::Done)?;
    Ok(steps)
}

/// Appends `step` and returns its place.
pub(crate) fn add(step: Step, steps: &mut Vec<Step>) -> Result<usize, Refusal>
    requires planned { ArePlanned steps.old.items }
    requires step { MayFollow steps.old.items step }
    ensures there { IfOk result (λ place. place < length steps.new.items) }
    ensures leading { IfOk result (λ place. LeadsBy steps.old.items steps.new.items place step) }
    ensures visited { IfOk result (λ place. VisitsBy steps.old.items steps.new.items place step) }
    ensures kept { OnOk result (IsKept steps.old.items steps.new.items) }
    ensures planned { OnOk result (ArePlanned steps.new.items) }
    ensures memory { IsOkUnless result Refusal.Memory }
{
    let place = steps.len();
    steps.push(step)?;
    Ok(place)
}

/// Returns the step at `place`, or [`Step::Stuck`] if there is no such place.
pub(crate) fn step_at(steps: &[Step], place: usize) -> Step
    requires { ArePlanned steps.now }
    ensures leading { LeadsBy steps.now steps.now place result }
    ensures visited { VisitsBy steps.now steps.now place result }
    ensures step { MayFollow steps.now result }
{
    match steps.get(place) {
        Some(step) => *step,
        None => Step::Stuck,
    }
}
