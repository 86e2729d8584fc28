ghost use Rattle.omega_lift_laws.specs.Laws.{ChoicesAreAStrategy, ChoicesWin, WonPlacesAreInRegions};

/// States that the choices of an answer are a strategy.
pub fn choices_are_a_strategy()
    ensures { ChoicesAreAStrategy }
{}

/// States that, if no lift is due, the choices of the answer win from each place whose measure is below top (Jurdziński
/// 2000).
pub fn choices_win()
    ensures { ChoicesWin }
{}

/// States that, if no lift is due, each place whose measure is below top is in the player's region.
pub fn won_places_are_in_regions()
    ensures { WonPlacesAreInRegions }
{}
