//! Laws of winning by the least priority. Each call does nothing and states one law.
ghost use Rattle.omega_answers_game.specs.LeastPlays.{LeastWinningMeansAllPlays};
ghost use Rattle.omega_answers_game.specs.LeastPriorityLaws.{TurnedGamesAreGames, TurnedGamesWinAlike};
ghost use Rattle.omega_answers_game.specs.LeastPriorityLaws.{TurnedGamesKeepLimits, TurnedRegionsAreAlike};
ghost use Rattle.omega_answers_game.specs.LeastPriorityLaws.{TurnedTextsAreRead};

use omega_game::{parts_are_games, parts_keep_nodes};
use omega_game_region_laws::winning_means_all_plays;
use omega_pg::laws::{canonical_texts_are_read, games_of_texts_are_one};

/// States that a strategy wins by the least priority exactly if it wins in the game whose priorities are turned.
pub fn turned_games_win_alike()
    ensures { TurnedGamesWinAlike }
{}

/// States that a player wins a node by the least priority exactly if the player wins it in the game whose priorities
/// are turned.
pub fn turned_regions_are_alike()
    ensures { TurnedRegionsAreAlike }
{}

/// States that a game whose priorities are turned is a game.
pub fn turned_games_are_games()
    ensures { TurnedGamesAreGames }
{}

/// States that a game within the limits stays within them if its priorities are turned.
pub fn turned_games_keep_limits()
    ensures { TurnedGamesKeepLimits }
{}

/// States that what `canon_least` writes, if it is within the limit of texts, is read as the game whose priorities are
/// turned.
pub fn turned_texts_are_read()
    ensures { TurnedTextsAreRead }
{
    games_of_texts_are_one();
    parts_are_games();
    parts_keep_nodes();
    canonical_texts_are_read();
    turned_games_are_games();
    turned_games_keep_limits();
}

/// States that a strategy wins from a node by the least priority exactly if no infinite play under it from there has a
/// least recurring priority that loses for the player.
pub fn least_winning_means_all_plays()
    ensures { LeastWinningMeansAllPlays }
{
    winning_means_all_plays();
    turned_games_win_alike();
}
