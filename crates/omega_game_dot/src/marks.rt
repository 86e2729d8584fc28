//! The marks of a lasso: which nodes and which edges are on it.
ghost use Rattle.std.specs.Prelude.{◌≡◌, ◌≤◌, ◌++◌, [], ℕ, IfOk, IsOkUnless, OnOk, length, take};
ghost use Rattle.omega_game_values.specs.Winning.{end_of};
ghost use Rattle.omega_game_dot.specs.Roles.{is_among, is_step, role_by, steps_along};
ghost use Rattle.omega_game_dot.specs.private.Marking.{AddsSteps, AreMarksOf};

use crate::role::Role;
use indexmap::IndexSet;
use omega_game_values::Refusal;
use std::alloc::Global;

/// The places and the steps of a lasso. A step is a place with the one after it.
pub(crate) struct LassoMarks {
    pub(crate) stem: IndexSet<u32>,
    pub(crate) cycle: IndexSet<u32>,
    pub(crate) stem_steps: IndexSet<(u32, u32)>,
    pub(crate) cycle_steps: IndexSet<(u32, u32)>,
}

impl Drop for LassoMarks {
    // Written by hand, so that each function that owns marks calls it. What a derive drops is dropped field by field at
    // each exit of such a function, and is proved there.
    fn drop(self) {
        let LassoMarks {
            stem: _,
            cycle: _,
            stem_steps: _,
            cycle_steps: _,
        } = self;
    }
}

impl LassoMarks {
    ghost use Rattle.omega_game_dot.specs.private.Marking.{marked_edge, marked_node};

    /// Returns the role of the node at `place`.
    pub(crate) fn node_role(&self, place: u32) -> Role
        ensures { result ≡ marked_node self.now place }
    {
        role_by(self.cycle.contains(&place), self.stem.contains(&place))
    }

    /// Returns the role of the edges from the node at `from` to that at `to`.
    pub(crate) fn edge_role(&self, from: u32, to: u32) -> Role
        ensures { result ≡ marked_edge self.now from to }
    {
        let step = (from, to);
        role_by(
            self.cycle_steps.contains(&step),
            self.stem_steps.contains(&step),
        )
    }
}

/// Returns the role of what is on the cycle or on the stem, or on both or on neither.
fn role_by(on_cycle: bool, on_stem: bool) -> Role
    ensures { result ≡ role_by on_cycle on_stem }
{
    if on_cycle {
        Role::Cycle
    } else if on_stem {
        Role::Stem
    } else {
        Role::Plain
    }
}

/// Returns the marks of the lasso of `stem` and `cycle`. Linear in both.
pub(crate) fn marks_of(alloc: Global, stem: &[u32], cycle: &[u32]) -> Result<LassoMarks, Refusal>
    ensures marks { IfOk result (AreMarksOf stem.now cycle.now) }
    ensures memory { IsOkUnless result Refusal.Memory }
{
    let first = first_of(cycle);
    let mut marks = LassoMarks {
        stem: IndexSet::new(alloc),
        cycle: IndexSet::new(alloc),
        stem_steps: IndexSet::new(alloc),
        cycle_steps: IndexSet::new(alloc),
    };
    add_places(&mut marks.stem, stem)?;
    add_places(&mut marks.cycle, cycle)?;
    add_steps(&mut marks.stem_steps, stem, first)?;
    add_steps(&mut marks.cycle_steps, cycle, first)?;
    Ok(marks)
}

/// Returns the first of `places` alone, or nothing if there is none.
fn first_of(places: &[u32]) -> &[u32]
    ensures { result.now ≡ take 1 places.now }
{
    if places.is_empty() {
        places
    } else {
        &places[..1]
    }
}

/// Adds `places` to the empty set `found`.
fn add_places(found: &mut IndexSet<u32>, places: &[u32]) -> Result<(), Refusal>
    requires { found.old.keys ≡ [] }
    ensures found { OnOk result
        ((place : ℕ) → is_among place found.new.keys ≡ is_among place places.now) }
    ensures memory { IsOkUnless result Refusal.Memory }
{
    for place in places {
        found.insert(*place)?;
    }
    Ok(())
}

/// Adds the steps along `places` and on to `last`, which has at most one place, to the empty set `found`.
fn add_steps(found: &mut IndexSet<(u32, u32)>, places: &[u32], last: &[u32]) -> Result<(), Refusal>
    requires empty { found.old.keys ≡ [] }
    requires last { length last.now ≤ 1 }
    ensures found { OnOk result ((v w : ℕ) →
        is_step v w found.new.keys ≡ is_step v w (steps_along (places.now ++ last.now))) }
    ensures memory { IsOkUnless result Refusal.Memory }
{
    let [first, others @ ..] = places else {
        return Ok(());
    };
    let end = add_steps_from(found, *first, others)?;
    add_steps_from(found, end, last)?;
    Ok(())
}

/// Adds the steps from the place `from` along `places`, and returns the last of these, or `from` if there are none.
fn add_steps_from(
    found: &mut IndexSet<(u32, u32)>,
    from: u32,
    places: &[u32],
) -> Result<u32, Refusal>
    ensures added { OnOk result (AddsSteps from places.now found.old.keys found.new.keys) }
    ensures end { IfOk result (λ end. end ≡ end_of from places.now) }
    ensures memory { IsOkUnless result Refusal.Memory }
{
    let mut at = from;
    for place in places {
        found.insert((at, *place))?;
        at = *place;
    }
    Ok(at)
}
