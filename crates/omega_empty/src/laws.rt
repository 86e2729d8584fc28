//! A law of the emptiness game: player 0 wins it from each start at which an accepting lasso begins.

ghost use Rattle.omega_empty.specs.Laws.{AcceptingLassosAreWon};

use omega_game_region_laws::regions_cover;
use omega_hoa_acceptance::{buchi_is_every_set, parity_is_priority};

/// States that player 0 wins the emptiness game from the node of each start, at the first counter, at which an
/// accepting lasso begins. So if it wins no such node, the automaton has no accepting lasso.
pub fn accepting_lassos_are_won()
    ensures { AcceptingLassosAreWon }
{
    parity_is_priority();
    buchi_is_every_set();
    regions_cover();
}
