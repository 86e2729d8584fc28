//! Laws of regions, which hold in every parity game, whatever the code does.
ghost use Rattle.omega_game_region_laws.specs.Laws.{RegionsAreApart, RegionsAreWonAtOnce};
ghost use Rattle.omega_game_region_laws.specs.Laws.{RegionsCover, RegionsOfParts, WinningIsKept};

use omega_game_reaching::parts_keep_nodes;
use omega_game_values::choices_are_entries;

/// States that a strategy that wins from a node wins from each node to which it leaves an edge possible.
pub fn winning_is_kept()
    ensures { WinningIsKept }
{}

/// States that no node is in the regions of both players.
pub fn regions_are_apart()
    ensures { RegionsAreApart }
{}

/// States that each node is in the region of one of the players: parity games are determined. The proof is Zielonka's
/// induction (Zielonka 1998).
pub fn regions_cover()
    ensures { RegionsCover }
{}

/// States that a player has one strategy that wins from every node of the player's region.
pub fn regions_are_won_at_once()
    ensures { RegionsAreWonAtOnce }
{}

/// States that a node of a part is in a player's region of the part exactly if it is in that player's region of the
/// game.
pub fn regions_of_parts()
    ensures { RegionsOfParts }
{
    choices_are_entries();
    parts_keep_nodes();
}
