//! Laws of the emptiness game, the other way: what player 0 wins gives accepting lassos, start by start.

ghost use Rattle.omega_empty.specs.GameLaws.{UnwonIsEmpty, WonStartsAccept, WonWalksAccept};

use omega_game_region_laws::regions_cover;
use omega_hoa_acceptance::{buchi_is_every_set, parity_is_priority};

/// States that two walks of the game pass the edges of an accepting lasso, which begins at a start. The first leads
/// from the start's node, at the first counter, to a node that is no edge's. The second is closed, begins there, and
/// its greatest priority is even.
pub fn won_walks_accept()
    ensures { WonWalksAccept }
{
    parity_is_priority();
    buchi_is_every_set();
}

/// States that player 0 wins the node of a start, at the first counter, exactly if an accepting lasso begins there.
pub fn won_starts_accept()
    ensures { WonStartsAccept }
{
    parity_is_priority();
    buchi_is_every_set();
    regions_cover();
}

/// States that player 0 wins no start's node, at the first counter, exactly if the automaton has no accepting lasso.
pub fn unwon_is_empty()
    ensures { UnwonIsEmpty }
{
    parity_is_priority();
    buchi_is_every_set();
    regions_cover();
}
