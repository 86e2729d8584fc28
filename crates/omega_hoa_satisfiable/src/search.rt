ghost use Rattle.std.specs.Prelude.{◌<◌, ◌↔◌, IfNone, IfOk, IfSome, IsOkUnless, IsTrue};
ghost use Rattle.omega_hoa_satisfiable.specs.Limits.{most_visited};
ghost use Rattle.omega_hoa_satisfiable.specs.private.Leading.{ArePlanned, ReachesEnd};
ghost use Rattle.omega_hoa_satisfiable.specs.private.Visits.{visits};

use crate::branches::Branches;
use crate::limits::MOST_VISITED;
use crate::steps::{Step, step_at};
use omega_text::Refusal;
use std::alloc::Global;

/// Returns whether some valuation leads from the place `start` to the end, or none if that takes too many steps.
pub(crate) fn search(alloc: Global, steps: &[Step], start: usize) -> Result<Option<bool>, Refusal>
    requires { ArePlanned steps.now }
    ensures ok { IfOk result
        (λ answer. IfSome answer (λ possible. IsTrue possible ↔ ReachesEnd steps.now start)) }
    ensures none { IfOk result (λ answer. IfNone answer (most_visited < visits steps.now start)) }
    ensures memory { IsOkUnless result Refusal.Memory }
{
    let mut branches = Branches::new(alloc);
    let mut place = start;
    for _visit in 0..MOST_VISITED {
        place = match step_at(steps, place) {
            Step::Done => {
                branches.has_valuation();
                return Ok(Some(true));
            }
            Step::Stuck => match branches.backtrack()? {
                Some(next) => next,
                None => return Ok(Some(false)),
            },
            Step::Either(one, other) => {
                branches.defer(other, None)?;
                one
            }
            Step::Try(literal) => branches.take(literal)?,
        };
    }
    Ok(None)
}
