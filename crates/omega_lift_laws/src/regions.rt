ghost use Rattle.omega_lift_laws.specs.Laws.{RegionsStayBelowTop};

/// States that no lifting run from the all-zero table takes a node of the player's region to top (Jurdziński 2000).
///
/// A run never passes a certain table. For each losing priority it counts the nodes of that priority on walks that a
/// winning strategy leaves possible and that meet no greater priority.
pub fn regions_stay_below_top()
    ensures { RegionsStayBelowTop }
{}
