//! Laws of infinite plays: winning, defined by closed walks, has its usual meaning.
ghost use Rattle.omega_game_region_laws.specs.Histories.{MemoryWinsNoMore};
ghost use Rattle.omega_game_region_laws.specs.Plays.{PlaysHaveLimits, RegionsAreWonInAllPlays};
ghost use Rattle.omega_game_region_laws.specs.Plays.{WinningMeansAllPlays};

/// States that a strategy wins from a node exactly if no infinite play under it from there has a greatest recurring
/// priority that loses for the player. That is the parity condition (Emerson and Jutla 1991).
pub fn winning_means_all_plays()
    ensures { WinningMeansAllPlays }
{}

/// States that a node is in a player's region exactly if some positional strategy of the player wins all infinite plays
/// from it.
pub fn regions_are_won_in_all_plays()
    ensures { RegionsAreWonInAllPlays }
{}

/// States that, given the limited principle of omniscience, every infinite play has a greatest recurring priority. That
/// principle is the excluded middle for tests of numbers. No other law but `memory_wins_no_more` needs it.
pub fn plays_have_limits()
    ensures { PlaysHaveLimits }
{}

/// States that strategies with memory win no more nodes than positional ones, given the limited principle of
/// omniscience. A node is in the player's region if some strategy that chooses by the history of the play wins all
/// infinite plays from it.
pub fn memory_wins_no_more()
    ensures { MemoryWinsNoMore }
{}
