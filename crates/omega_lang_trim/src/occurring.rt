//! Whether a formula holds of some edges together.

ghost use Rattle.std.specs.Prelude.{◌≡◌, ◌<◌, not, length, map, All, IfOk, IsOkUnless};
ghost use Rattle.omega_hoa_acceptance.specs.Acceptance.{holds, occurs};
ghost use Rattle.omega_graph.specs.Marks.{accepts_apart, meets};
ghost use Rattle.omega_graph_accepting_walk.specs.Rows.{row_at};

use omega_hoa_acceptance::{Acc, AtomJudge};
use omega_text::{Numbers, Refusal};
use std::alloc::Global;

/// Whether `formula` holds if each `Inf` is judged on the edges `some` and each `Fin` on the edges `all`. `marks` has
/// the marks of each edge. Linear in the marks of both for each atom.
pub(crate) fn holds_apart(
    alloc: Global,
    marks: &[Numbers],
    some: &[u32],
    all: &[u32],
    formula: &Acc,
) -> Result<bool, Refusal>
    requires some { All (λ edge. edge < length marks.now) some.now }
    requires all { All (λ edge. edge < length marks.now) all.now }
    ensures holds { IfOk result (λ holds. holds ≡ accepts_apart (map (row_at marks.now) some.now)
        (map (row_at marks.now) all.now) formula.now) }
    ensures memory { IsOkUnless result Refusal.Memory }
{
    let judge = ApartJudge { marks, some, all };
    let holds = formula.holds_by(alloc, &judge)?;
    Ok(holds)
}

/// Edges on which each `Inf` is judged, and edges on which each `Fin` is. `marks` has the marks of each edge.
#[derive(Clone, Copy)]
struct ApartJudge<'a> {
    marks: &'a [Numbers],
    some: &'a [u32],
    all: &'a [u32],
}

impl<'a> AtomJudge for ApartJudge<'a> {
    ghost can_judge = { λ j. All (λ edge. edge < length j.marks.now) j.some.now
        × All (λ edge. edge < length j.marks.now) j.all.now };

    ghost infs = { λ j. occurs (map (row_at j.marks.now) j.some.now) };

    ghost fins = { λ j negated set. not (occurs (map (row_at j.marks.now) j.all.now) negated set) };

    fn inf_holds(&self, negated: bool, set: u32) -> bool {
        occurs(self.marks, self.some, negated, set)
    }

    fn fin_holds(&self, negated: bool, set: u32) -> bool {
        !occurs(self.marks, self.all, negated, set)
    }
}

/// Whether one of `edges` has `set`, or lacks it if `negated`.
fn occurs(marks: &[Numbers], edges: &[u32], negated: bool, set: u32) -> bool
    requires { All (λ edge. edge < length marks.now) edges.now }
    ensures { result ≡ occurs (map (row_at marks.now) edges.now) negated set }
{
    for edge in edges {
        if edge_meets(marks, *edge, negated, set) {
            return true;
        }
    }
    false
}

/// Whether `edge` has `set`, or lacks it if `negated`.
fn edge_meets(marks: &[Numbers], edge: u32, negated: bool, set: u32) -> bool
    requires { edge < length marks.now }
    ensures { result ≡ meets negated set (row_at marks.now edge) }
{
    meets(&marks[edge as usize], negated, set)
}

/// Whether `marks` has `set`, or lacks it if `negated`.
fn meets(marks: &Numbers, negated: bool, set: u32) -> bool
    ensures { result ≡ meets negated set marks.now }
{
    let held = holds(marks.as_slice(), set);
    if negated { !held } else { held }
}

/// Whether `set` is among `marks`.
fn holds(marks: &[u32], set: u32) -> bool
    ensures { result ≡ holds set marks.now }
{
    marks.iter().any(|mark| *mark == set)
}
