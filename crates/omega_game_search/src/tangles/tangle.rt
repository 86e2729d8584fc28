use omega_game_values::Player;
use omega_graph_search::NONE;

/// A tangle: nodes in which the choices of its player win each play that stays. The opponent can leave it by its
/// escapes alone.
#[derive(Clone, Copy)]
pub(crate) struct Tangle {
    pub player: Player,
    /// How many of its escapes are free.
    pub free_escapes: u32,
    /// The ranges of its nodes and of its escapes in the lists of all.
    pub first_node: u32,
    pub end_node: u32,
    pub first_escape: u32,
    pub end_escape: u32,
}

impl Tangle {
    /// Returns the number of its escapes.
    pub(crate) fn escapes(self) -> u32 {
        self.end_escape.wrapping_sub(self.first_escape)
    }

    /// Whether the opponent cannot leave the tangle.
    pub(crate) fn is_dominion(self) -> bool {
        self.escapes() == 0
    }
}

/// A node of a tangle, with what its owner chooses there if that is the player of the tangle.
#[derive(Clone, Copy)]
pub(crate) struct TangleNode {
    pub node: u32,
    pub choice: u32,
}

/// An escape: a node outside of a tangle to which the opponent can leave it.
#[derive(Clone, Copy)]
pub(crate) struct Escape {
    pub node: u32,
    /// The tangle that has the escape.
    pub tangle: u32,
    /// The next escape to the same node.
    pub next: u32,
}

impl Escape {
    /// Makes an escape to `node` that no tangle has.
    pub(crate) fn to(node: u32) -> Escape {
        Escape {
            node,
            tangle: NONE,
            next: NONE,
        }
    }
}
