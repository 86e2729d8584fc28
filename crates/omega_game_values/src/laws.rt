//! Laws of the definitions: what holds of strategies and of building, whatever the code does.
ghost use Rattle.omega_game_values.specs.Laws.{ChoicesAreEntries, GamesExist, GamesHaveNoFault};
ghost use Rattle.omega_game_values.specs.Laws.{GamesKeepLimits, SpecificationsHaveOneGame};

/// Proves that what a strategy chooses at a place is its choice there.
pub fn choices_are_entries()
    ensures { ChoicesAreEntries }
{}

/// Proves that specifications have at most one game.
pub fn specifications_have_one_game()
    ensures { SpecificationsHaveOneGame }
{}

/// Proves that the specifications of a game within the limits have no fault.
pub fn games_have_no_fault()
    ensures { GamesHaveNoFault }
{}

/// Proves that well-formed specifications without a fault have a game.
pub fn games_exist()
    ensures { GamesExist }
{}

/// Proves that the game of well-formed specifications without a fault keeps the limits.
pub fn games_keep_limits()
    ensures { GamesKeepLimits }
{}
