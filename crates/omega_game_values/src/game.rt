ghost use Rattle.std.specs.Prelude.{◌≡◌, ◌<◌, length, vec_len, option_map, position};
ghost use Rattle.std.specs.Prelude.{◌==◌, All, IfOk, IfErr, OnOk, IsOkUnless, None};

use crate::builder::GameBuilder;
use crate::forward_game::ForwardGame;
use crate::lists::Lists;
use crate::node_spec::NodeSpec;
use crate::player::Player;
use crate::priority_counts::PriorityCount;
use omega_text::Refusal;
use std::alloc::Global;
use std::marker::Model;

/// A parity game, with the predecessors of each place. A place is a node's position, from 0, in rising order of
/// identifiers.
pub struct Game {
    forward: ForwardGame,
    predecessors: Lists<u32>,
}

impl Drop for Game {
    // By hand, so that a game is dropped by a call at each exit of a function that owns it, not field by field.
    fn drop(self) {
        let Game {
            forward: _,
            predecessors: _,
        } = self;
    }
}

impl Model for Game {
    ghost use Rattle.std.specs.Prelude.{List};
    ghost use Rattle.omega_game_values.specs.Game.{Node};
    ghost use Rattle.omega_game_values.specs.private.layout.Columns.{ArePredecessors};

    ghost Value = { List Node };

    ghost view = { λ a. a.forward };

    ghost invariant = { λ a. ArePredecessors a.forward a.predecessors };
}

impl ForwardGame {
    /// Makes a [`Game`] of this one: adds the predecessors, which take memory. Returns [`Refusal::Memory`] if a request
    /// for it is refused. Takes time in the nodes and edges.
    pub fn with_predecessors(self, alloc: Global) -> Result<Game, Refusal>
        ensures game { IfOk result (λ game. game ≡ self) }
        ensures memory { IsOkUnless result Refusal.Memory }
    {
        let predecessors = self.listed_predecessors(alloc)?;
        Ok(Game {
            forward: self,
            predecessors,
        })
    }
}

impl Game {
    ghost use Rattle.omega_game_values.specs.Building.{IsBuildRefusal, IsGameOf, IsWellFormed, game_fault_of};
    ghost use Rattle.omega_game_values.specs.Game.{IsGame, IsWithinLimits, successor_count};
    ghost use Rattle.omega_game_values.specs.Game.{identifiers, node_at, owner_at, predecessors_of};
    ghost use Rattle.omega_game_values.specs.Game.{priorities, priority_at, successors_at};
    ghost use Rattle.omega_game_values.specs.Bound.{priority_counts};

    /// Returns the game of the specifications, which may come in any order. Refuses with the first that applies of
    /// `DuplicateNode`, `UndefinedSuccessor`, `TooManyNodes` and `TooManyEdges` of `GameFault`, or with
    /// [`Refusal::Memory`] if a request for memory is refused.
    pub fn build(alloc: Global, specs: Vec<NodeSpec>) -> Result<Game, Refusal>
        requires listed { 0 < vec_len specs }
        requires well_formed { All IsWellFormed specs.items }
        ensures game { IfOk result (λ game. IsGameOf specs.items game) }
        ensures faultless { OnOk result (game_fault_of specs.items ≡ None) }
        ensures refused { IfErr result (IsBuildRefusal specs.items) }
    {
        let builder = GameBuilder::of(alloc, &specs)?;
        builder.finish()
    }

    /// Returns the game without its predecessors, which texts, drawings and judgements take.
    pub fn forward_game(&self) -> &ForwardGame
        ensures { result.now ≡ self.now }
    {
        &self.forward
    }

    /// Returns the number of nodes, at least 1.
    pub fn len(&self) -> usize
        ensures count { result ≡ length self.now }
        ensures game { IsGame self.now }
        ensures limits { IsWithinLimits self.now }
    {
        self.forward.len()
    }

    /// Does nothing: its contract says what each game keeps.
    pub fn keeps_limits(&self)
        ensures game { IsGame self.now }
        ensures limits { IsWithinLimits self.now }
    {
        self.forward.keeps_limits();
    }

    /// Returns the number of listed successors, repeats counted.
    pub fn edges(&self) -> usize
        ensures { result ≡ successor_count self.now }
    {
        self.forward.edges()
    }

    /// Returns the identifier of the node at a place.
    pub fn id(&self, place: u32) -> u32
        requires { place < length self.now }
        ensures { result ≡ (node_at self.now place).identifier }
    {
        self.forward.id(place)
    }

    /// Returns the priority of the node at a place.
    pub fn priority(&self, place: u32) -> u32
        requires { place < length self.now }
        ensures { result ≡ priority_at self.now place }
    {
        self.forward.priority(place)
    }

    /// Returns the player who chooses the successor at a place.
    pub fn owner(&self, place: u32) -> Player
        requires { place < length self.now }
        ensures { result ≡ owner_at self.now place }
    {
        self.forward.owner(place)
    }

    /// Returns the name of the node at a place, without its quotes.
    pub fn name(&self, place: u32) -> Option<&[u8]>
        requires { place < length self.now }
        ensures { option_map (λ name. name.now) result ≡ (node_at self.now place).name }
    {
        self.forward.name(place)
    }

    /// Returns the places of the successors of the node at a place, in the order listed, repeats kept.
    pub fn successors(&self, place: u32) -> &[u32]
        requires { place < length self.now }
        ensures { result.now ≡ successors_at self.now place }
    {
        self.forward.successors(place)
    }

    /// Returns the places with an edge to a place, rising, one entry for each listed edge.
    pub fn predecessors(&self, place: u32) -> &[u32]
        requires { place < length self.now }
        ensures { result.now ≡ predecessors_of self.now place }
    {
        self.predecessors.list(place as usize)
    }

    /// Returns the place of the node with an identifier.
    pub fn place_of(&self, id: u32) -> Option<u32>
        ensures { result ≡ position (λ x. x == id) (identifiers self.now) }
    {
        self.forward.place_of(id)
    }

    /// Returns each priority in use, the greatest first, with the number of nodes that have it.
    pub fn priority_counts(&self) -> &[PriorityCount]
        ensures { result.now ≡ priority_counts (priorities self.now) }
    {
        self.forward.priority_counts()
    }
}
