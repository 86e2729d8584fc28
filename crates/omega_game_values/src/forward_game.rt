ghost use Rattle.std.specs.Prelude.{◌≡◌, ◌<◌, length, option_map, position, ◌==◌, IfOk};

use crate::identifiers::{identifier_at, place_among};
use crate::lists::Lists;
use crate::names::name_at;
use crate::player::Player;
use crate::predecessors::predecessors_of;
use crate::priority_counts::{PriorityCount, counts_of};
use indexmap::IndexSet;
use std::alloc::{AllocError, Global};
use std::marker::Model;

/// A parity game without its predecessors: all that is read of it forward. Texts, drawings and judgements need no more.
/// If each node has two successors, it takes three fifths of the memory of the `Game` that `with_predecessors` makes of
/// it. A place is a node's position, from 0, in rising order of identifiers.
pub struct ForwardGame {
    // Empty if the identifiers are 0 to n - 1: each place is its identifier then.
    listed: IndexSet<u32>,
    priorities: Vec<u32>,
    owners: Vec<Player>,
    successors: Lists<u32>,
    // The name of each node after an opening quote, so that an empty name differs from none. It ends with the
    // last node that is named.
    quoted: Lists<u8>,
    priority_counts: Vec<PriorityCount>,
}

impl Drop for ForwardGame {
    // By hand, so that a game is dropped by a call at each exit of a function that owns it, not field by field.
    fn drop(self) {
        let ForwardGame {
            listed: _,
            priorities: _,
            owners: _,
            successors: _,
            quoted: _,
            priority_counts: _,
        } = self;
    }
}

impl Model for ForwardGame {
    ghost use Rattle.std.specs.Prelude.{List};
    ghost use Rattle.omega_game_values.specs.Game.{Node};
    ghost use Rattle.omega_game_values.specs.private.layout.Columns.{columns_of, nodes_of, IsLaidOut};

    ghost Value = { List Node };

    ghost view = { λ a. nodes_of
        (columns_of a.listed.keys a.priorities.items a.owners.items a.successors a.quoted) };

    ghost invariant = { λ a. IsLaidOut
        (columns_of a.listed.keys a.priorities.items a.owners.items a.successors a.quoted)
        a.priority_counts.items };
}

impl ForwardGame {
    ghost use Rattle.omega_game_values.specs.Game.{IsGame, IsWithinLimits, successor_count, identifiers};
    ghost use Rattle.omega_game_values.specs.Game.{node_at, owner_at, priorities, priority_at, successors_at};
    ghost use Rattle.omega_game_values.specs.Bound.{priority_counts};
    ghost use Rattle.omega_game_values.specs.private.layout.Columns.{columns_of, nodes_of};
    ghost use Rattle.omega_game_values.specs.private.layout.Columns.{AreEven, ArePredecessors};

    /// Counts the priorities and returns the forward game of these columns.
    pub(crate) fn of_columns(
        alloc: Global,
        listed: IndexSet<u32>,
        priorities: Vec<u32>,
        owners: Vec<Player>,
        successors: Lists<u32>,
        quoted: Lists<u8>,
    ) -> Result<ForwardGame, AllocError>
        requires even { AreEven
            (columns_of listed.keys priorities.items owners.items successors quoted) }
        requires game { IsGame
            (nodes_of (columns_of listed.keys priorities.items owners.items successors quoted)) }
        requires limits { IsWithinLimits
            (nodes_of (columns_of listed.keys priorities.items owners.items successors quoted)) }
        ensures { IfOk result
            (λ forward. forward ≡ nodes_of
            (columns_of listed.keys priorities.items owners.items successors quoted)) }
    {
        let priority_counts = counts_of(alloc, priorities.as_slice())?;
        Ok(ForwardGame {
            listed,
            priorities,
            owners,
            successors,
            quoted,
            priority_counts,
        })
    }

    /// Returns the number of nodes, at least 1.
    pub fn len(&self) -> usize
        ensures count { result ≡ length self.now }
        ensures game { IsGame self.now }
        ensures limits { IsWithinLimits self.now }
    {
        self.priorities.len()
    }

    /// Does nothing: its contract says what each game keeps.
    pub fn keeps_limits(&self)
        ensures game { IsGame self.now }
        ensures limits { IsWithinLimits self.now }
    {
        // A field is read, since only then a proof knows the invariant.
        let _count = self.priorities.len();
    }

    /// Returns the number of listed successors, repeats counted.
    pub fn edges(&self) -> usize
        ensures { result ≡ successor_count self.now }
    {
        self.successors.total()
    }

    /// Returns the identifier of the node at a place.
    pub fn id(&self, place: u32) -> u32
        requires { place < length self.now }
        ensures { result ≡ (node_at self.now place).identifier }
    {
        identifier_at(self.listed.as_slice(), place)
    }

    /// Returns the priority of the node at a place.
    pub fn priority(&self, place: u32) -> u32
        requires { place < length self.now }
        ensures { result ≡ priority_at self.now place }
    {
        self.priorities[place as usize]
    }

    /// Returns the player who chooses the successor at a place.
    pub fn owner(&self, place: u32) -> Player
        requires { place < length self.now }
        ensures { result ≡ owner_at self.now place }
    {
        self.owners[place as usize]
    }

    /// Returns the name of the node at a place, without its quotes.
    pub fn name(&self, place: u32) -> Option<&[u8]>
        requires { place < length self.now }
        ensures { option_map (λ name. name.now) result ≡ (node_at self.now place).name }
    {
        name_at(&self.quoted, place as usize)
    }

    /// Returns the places of the successors of the node at a place, in the order listed, repeats kept.
    pub fn successors(&self, place: u32) -> &[u32]
        requires { place < length self.now }
        ensures { result.now ≡ successors_at self.now place }
    {
        self.successors.list(place as usize)
    }

    /// Returns the predecessors of each place. Takes time in the nodes and edges.
    pub(crate) fn listed_predecessors(&self, alloc: Global) -> Result<Lists<u32>, AllocError>
        ensures { IfOk result (ArePredecessors self.now) }
    {
        predecessors_of(alloc, &self.successors)
    }

    /// Returns the place of the node with an identifier.
    pub fn place_of(&self, id: u32) -> Option<u32>
        ensures { result ≡ position (λ x. x == id) (identifiers self.now) }
    {
        place_among(&self.listed, self.priorities.len(), id)
    }

    /// Returns each priority in use, the greatest first, with the number of nodes that have it.
    pub fn priority_counts(&self) -> &[PriorityCount]
        ensures { result.now ≡ priority_counts (priorities self.now) }
    {
        self.priority_counts.as_slice()
    }
}
