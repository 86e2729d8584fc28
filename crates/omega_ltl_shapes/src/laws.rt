//! Laws of demands and of the runs that meet them. Each function does nothing and states one law.

ghost use Rattle.omega_ltl_shapes.specs.Laws.{DemandsAreShown, GoodTermsAccept, TracesAreSound, TruthsFollowShapes};

/// States that a demand is met if what its shape says is shown, step by step.
pub fn demands_are_shown()
    ensures { DemandsAreShown }
{}

/// States that by the limited principle of omniscience each demand is met or not, and that what is met unfolds by its
/// shape.
pub fn truths_follow_shapes()
    ensures { TruthsFollowShapes }
{}

/// States that each demand that a trace covers is met where it is covered.
pub fn traces_are_sound()
    ensures { TracesAreSound }
{}

/// States that a run along good terms postpones no goal for ever.
pub fn good_terms_accept()
    ensures { GoodTermsAccept }
{}
