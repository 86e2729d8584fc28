use crate::tangles::ranked_game::player_of;
use omega_game_values::Player;
use omega_graph_search::NONE;

/// What stands for the region of a node that player 1 won.
pub(crate) const WON_BY_ONE: u32 = NONE;

/// What stands for the region of a node that player 0 won.
pub(crate) const WON_BY_ZERO: u32 = NONE - 1;

/// What stands for the region of a node that is in none yet.
pub(crate) const FREE: u32 = NONE - 2;

/// What stands for the region of a node that is not in its closed part.
pub(crate) const LEAVING: u32 = NONE - 3;

/// Whether a node with this region is not won.
#[inline(always)]
pub(crate) fn is_in_play(region: u32) -> bool {
    region <= FREE
}

/// A region: the nodes of a level that were free, which are its heads, and what their player attracts to them.
#[derive(Clone, Copy)]
pub(crate) struct Region {
    pub level: u32,
    /// Where its nodes begin in the list of all, and the number of its heads.
    pub start: u32,
    pub heads: u32,
    /// Where to look for heads of the next region if this one is given up: before this index of the nodes in play.
    pub before: u32,
}

impl Region {
    /// Returns the player whose region it is.
    #[inline(always)]
    pub(crate) fn player(self) -> Player {
        player_of(self.level)
    }
}

/// A range of regions, or of what stands for one.
#[derive(Clone, Copy)]
pub(crate) struct RegionRange {
    least: u32,
    most: u32,
}

impl RegionRange {
    /// The nodes that are in no region yet.
    pub(crate) const FREE: RegionRange = RegionRange {
        least: FREE,
        most: FREE,
    };

    /// The nodes that are not won.
    pub(crate) const IN_PLAY: RegionRange = RegionRange {
        least: 0,
        most: FREE,
    };

    /// Returns the range of the region at `level` alone.
    #[inline(always)]
    pub(crate) fn at(level: u32) -> RegionRange {
        RegionRange {
            least: level,
            most: level,
        }
    }

    /// Whether `region` is in the range.
    #[inline(always)]
    pub(crate) fn contains(self, region: u32) -> bool {
        self.least <= region && region <= self.most
    }
}
