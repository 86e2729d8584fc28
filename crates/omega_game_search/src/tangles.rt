//! Tangle learning (van Dijk 2018, *Attracting tangles to solve parity games*), on flat arrays.
//!
//! A *pass* cuts the nodes that are not won into *regions*, from the greatest level down. A level is a block of
//! priorities of one parity, whose player is the one for whom they win. The *heads* of a region are the free nodes of
//! its level. The region is the player's *attractor* to them among the nodes that are still free: from there the player
//! forces a visit to a head, unless the opponent goes to a region above. A node whose opponent can leave a region
//! downward is not in its *closed part*, nor is what must or may go to such a node.
//!
//! In a closed part the player wins each play that stays. Its bottom components, where the player keeps to the choices
//! made, are *tangles*. The *escapes* of a tangle are the nodes outside to which the opponent can leave it, all in
//! regions above. Since to stay is to lose, the opponent leaves in the end. So a tangle whose escapes are all taken is
//! attracted as a whole in later passes. One without escapes is a *dominion*: the player wins it and its attractor.
//!
//! A pass keeps the regions above the greatest one that a new tangle goes to or that a won node can change: they would
//! come out the same. Each pass finds a new tangle, so the search would end without fuel, after a number of passes that
//! may be exponential. Nothing of this is proved, as the suggestion is judged.
//!
//! The order that proves the wins comes with the attractors. In a region, each node that is attracted leads to nodes
//! that were attracted before, and so do attracted tangles by their escapes. So in the order the heads come first, by
//! falling priority, and then the others, the last attracted first: each edge leads forward or back to a head. The
//! nodes of a tangle are stored the other way round, as they are attracted. So an attracted tangle keeps its own order,
//! and the order of all is that in which the nodes were won, read backward.
mod attracting;
mod closing;
mod decomposition;
mod dominions;
mod learning;
mod purging;
mod ranked_game;
mod region;
mod regions;
mod stored_tangles;
mod tangle;
mod tangle_search;

pub(crate) use ranked_game::RankedGame;
pub(crate) use tangle_search::TangleSearch;
