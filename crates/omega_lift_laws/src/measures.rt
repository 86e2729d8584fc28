ghost use Rattle.omega_lift_laws.specs.Laws.{CoarseningForgets, MeasuresAreOrdered};
ghost use Rattle.omega_lift_laws.specs.Laws.{RanksAreBounded, RanksRise};

/// States that the order of measures is total.
pub fn measures_are_ordered()
    ensures { MeasuresAreOrdered }
{}

/// States that a measure that is at most another on the entries for priorities at least p is so for each greater p too.
pub fn coarsening_forgets()
    ensures { CoarseningForgets }
{}

/// States that the rank of a measure is at most the product, and below it if the measure is below top.
pub fn ranks_are_bounded()
    ensures { RanksAreBounded }
{}

/// States that a measure above another has a greater rank.
pub fn ranks_rise()
    ensures { RanksRise }
{}
