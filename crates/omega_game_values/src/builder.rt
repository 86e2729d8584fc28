ghost use Rattle.std.specs.Prelude.{◌≡◌, ◌+◌, ◌<◌, ◌≤◌, [], ◌∷◌, ◌++◌, length, All};
ghost use Rattle.std.specs.Prelude.{IsTrue, IfOk, IfErr, OnOk, OnErr, IsOkUnless, None};
ghost use Rattle.std.specs.Bool.{OnFalse};
ghost use Rattle.std.specs.List.{range_with_len};
ghost use Rattle.std.specs.List.Sorted.{IsNonDecreasing, IsPermutation, IsStrictlyIncreasing};

use crate::forward_game::ForwardGame;
use crate::game::Game;
use crate::identifiers::listed_ids;
use crate::limits::{MOST_NODES, MOST_SUCCESSORS};
use crate::lists::Lists;
use crate::names::{pad, picked_names};
use crate::node_spec::NodeSpec;
use crate::player::Player;
use crate::sorting::{is_rising, order_by_id, picked_items};
use omega_text::{GameFault, Refusal};
use std::alloc::{AllocError, Global};
use std::marker::Model;

/// Collects specifications one by one and builds their game. It keeps them flat: no vector for each node.
///
/// After 2^32 successors, or after names of 2^32 bytes, the next is refused with [`Refusal::Memory`] too, since a place
/// in them takes four bytes.
pub struct GameBuilder {
    ids: Vec<u32>,
    priorities: Vec<u32>,
    owners: Vec<Player>,
    // The identifiers of the successors.
    successors: Lists<u32>,
    // The name of each specification after an opening quote, as in a game.
    quoted: Lists<u8>,
}

impl Drop for GameBuilder {
    fn drop(self) {
        let GameBuilder {
            ids: _,
            priorities: _,
            owners: _,
            successors: _,
            quoted: _,
        } = self;
    }
}

impl Model for GameBuilder {
    ghost use Rattle.std.specs.Prelude.{List};
    ghost use Rattle.omega_game_values.specs.declared.node_spec.NodeSpec.{NodeSpec};

    ghost Value = { List NodeSpec };

    ghost use Rattle.omega_game_values.specs.private.layout.Collected.{AreCollected};
    ghost use Rattle.omega_game_values.specs.private.layout.Columns.{collected, specs_of};

    ghost view = { λ a.
        specs_of (collected a.ids.items a.priorities.items a.owners.items a.successors a.quoted) };

    ghost invariant = { λ a. AreCollected
        (collected a.ids.items a.priorities.items a.owners.items a.successors a.quoted) };
}

impl GameBuilder {
    ghost use Rattle.omega_game_values.specs.Game.{IsNameByte};
    ghost use Rattle.omega_text.specs.Limits.{most_number};
    ghost use Rattle.omega_game_values.specs.Building.{IsBuildRefusal, IsGameOf, IsWellFormed, game_fault_of};
    ghost use Rattle.omega_game_values.specs.Building.{unnamed_spec, with_last, with_name, with_successor};
    ghost use Rattle.omega_game_values.specs.private.layout.Collected.{ids_of};
    ghost use Rattle.omega_game_values.specs.private.layout.Sorting.{ids_along, HasFall};

    /// Returns a builder without specifications, which takes no memory.
    pub fn new(alloc: Global) -> Self
        ensures { result ≡ [] }
    {
        GameBuilder {
            ids: Vec::new(alloc),
            priorities: Vec::new(alloc),
            owners: Vec::new(alloc),
            successors: Lists::new(alloc),
            quoted: Lists::new(alloc),
        }
    }

    /// Returns a builder without specifications that has room for `nodes` of them, with `successors` in all. Adding
    /// these requests no memory, and the room is no more than they need; no contract says so. Names have no room.
    /// Returns [`Refusal::Memory`] if a request for memory is refused, as it is if the room is beyond what there is.
    pub fn with_room(alloc: Global, nodes: usize, successors: usize) -> Result<Self, Refusal>
        ensures empty { IfOk result (λ builder. builder ≡ []) }
        ensures memory { IsOkUnless result Refusal.Memory }
    {
        let ids = Vec::with_capacity(alloc, nodes)?;
        let priorities = Vec::with_capacity(alloc, nodes)?;
        let owners = Vec::with_capacity(alloc, nodes)?;
        let successors = Lists::with_room(alloc, nodes, successors)?;
        Ok(GameBuilder {
            ids,
            priorities,
            owners,
            successors,
            quoted: Lists::new(alloc),
        })
    }

    /// Returns the number of specifications so far, which are all well formed.
    pub fn len(&self) -> usize
        ensures count { result ≡ length self.now }
        ensures well_formed { All IsWellFormed self.now }
    {
        self.ids.len()
    }

    /// Adds a specification with one successor and no name. Returns [`Refusal::Memory`] and adds nothing if a request
    /// for memory is refused.
    pub fn add_node(
        &mut self,
        id: u32,
        priority: u32,
        owner: Player,
        first: u32,
    ) -> Result<(), Refusal>
        requires id { id ≤ most_number }
        requires priority { priority ≤ most_number }
        requires first { first ≤ most_number }
        ensures ok { OnOk result
            (self.new ≡ self.old ++ unnamed_spec id priority owner (first ∷ []) ∷ []) }
        ensures err { OnErr result (self.new ≡ self.old) }
        ensures memory { IsOkUnless result Refusal.Memory }
    {
        self.ids.reserve(1)?;
        self.priorities.reserve(1)?;
        self.owners.reserve(1)?;
        self.successors.push_single(first)?;
        let _ = self.ids.push(id);
        let _ = self.priorities.push(priority);
        let _ = self.owners.push(owner);
        Ok(())
    }

    /// Returns the builder of these specifications.
    pub(crate) fn of(alloc: Global, specs: &Vec<NodeSpec>) -> Result<GameBuilder, AllocError>
        requires { All IsWellFormed specs.now.items }
        ensures { IfOk result (λ builder. builder ≡ specs.now.items) }
    {
        let mut builder = GameBuilder::new(alloc);
        for spec in specs {
            builder.add_spec(spec)?;
        }
        Ok(builder)
    }

    /// Adds a specification.
    fn add_spec(&mut self, spec: &NodeSpec) -> Result<(), AllocError>
        requires { IsWellFormed spec.now }
        ensures ok { OnOk result (self.new ≡ self.old ++ spec.now ∷ []) }
    {
        self.add(
            spec.id,
            spec.priority,
            spec.owner,
            spec.successors.as_slice(),
        )?;
        if let Some(name) = &spec.name {
            self.name_last(name.as_slice())?;
        }
        Ok(())
    }

    /// Adds a specification without a name, or nothing on an error.
    pub(crate) fn add(
        &mut self,
        id: u32,
        priority: u32,
        owner: Player,
        successors: &[u32],
    ) -> Result<(), AllocError>
        requires { IsWellFormed (unnamed_spec id priority owner successors.now) }
        ensures ok { OnOk result
            (self.new ≡ self.old ++ unnamed_spec id priority owner successors.now ∷ []) }
        ensures err { OnErr result (self.new ≡ self.old) }
    {
        self.ids.reserve(1)?;
        self.priorities.reserve(1)?;
        self.owners.reserve(1)?;
        self.successors.push_list(successors)?;
        let _ = self.ids.push(id);
        let _ = self.priorities.push(priority);
        let _ = self.owners.push(owner);
        Ok(())
    }

    /// Adds a successor to the last specification. Returns [`Refusal::Memory`] and adds nothing if a request for memory
    /// is refused.
    pub fn add_successor(&mut self, successor: u32) -> Result<(), Refusal>
        requires begun { 0 < length self.old }
        requires successor { successor ≤ most_number }
        ensures ok { OnOk result (self.new ≡ with_last (with_successor successor) self.old) }
        ensures err { OnErr result (self.new ≡ self.old) }
        ensures memory { IsOkUnless result Refusal.Memory }
    {
        self.successors.push_item(successor)?;
        Ok(())
    }

    /// Sets the name of the last specification. Returns [`Refusal::Memory`] and changes nothing if a request for memory
    /// is refused.
    pub fn set_name(&mut self, name: &[u8]) -> Result<(), Refusal>
        requires begun { 0 < length self.old }
        requires bytes { All IsNameByte name.now }
        ensures ok { OnOk result (self.new ≡ with_last (with_name name.now) self.old) }
        ensures err { OnErr result (self.new ≡ self.old) }
        ensures memory { IsOkUnless result Refusal.Memory }
    {
        self.name_last(name)?;
        Ok(())
    }

    /// Sets the name of the last specification, or changes nothing on an error.
    fn name_last(&mut self, name: &[u8]) -> Result<(), AllocError>
        requires begun { 0 < length self.old }
        requires bytes { All IsNameByte name.now }
        ensures ok { OnOk result (self.new ≡ with_last (with_name name.now) self.old) }
        ensures err { OnErr result (self.new ≡ self.old) }
    {
        pad(&mut self.quoted, self.ids.len())?;
        self.quoted.replace_last(b'"', name)?;
        Ok(())
    }

    /// Returns the specifications in rising order of identifiers.
    fn sorted_specs(self) -> Result<GameBuilder, AllocError>
        ensures permutation { IfOk result (λ builder. IsPermutation self builder) }
        ensures rising { IfOk result (λ builder. IsNonDecreasing (ids_of builder)) }
    {
        let order = self.order()?;
        self.rearranged_by(order.as_slice())
    }

    /// Whether each identifier is greater than the one before it.
    fn has_rising_ids(&self) -> bool
        ensures rising { IsTrue result → IsStrictlyIncreasing (ids_of self.now) }
        ensures falling { OnFalse result (HasFall (ids_of self.now)) }
    {
        is_rising(self.ids.as_slice())
    }

    /// Returns the indices of the specifications, in rising order of identifiers.
    fn order(&self) -> Result<Vec<usize>, AllocError>
        ensures permutation { IfOk result
            (λ order. IsPermutation (range_with_len 0 (length self.now)) order.items) }
        ensures rising { IfOk result
            (λ order. IsNonDecreasing (ids_along (ids_of self.now) order.items)) }
    {
        let order = order_by_id(*self.ids.allocator(), self.ids.as_slice())?;
        Ok(order)
    }

    /// Returns the specifications in the order of these indices, which are those of all.
    fn rearranged_by(&self, order: &[usize]) -> Result<GameBuilder, AllocError>
        requires { IsPermutation (range_with_len 0 (length self.now)) order.now }
        ensures permutation { IfOk result (λ builder. IsPermutation self.now builder) }
        ensures ids { IfOk result (λ builder. ids_of builder ≡ ids_along (ids_of self.now) order.now) }
    {
        let alloc = *self.ids.allocator();
        let ids = picked_items(alloc, self.ids.as_slice(), order)?;
        let priorities = picked_items(alloc, self.priorities.as_slice(), order)?;
        let owners = picked_items(alloc, self.owners.as_slice(), order)?;
        let successors = self.successors.picked_lists(alloc, order)?;
        let quoted = picked_names(alloc, &self.quoted, order)?;
        Ok(GameBuilder {
            ids,
            priorities,
            owners,
            successors,
            quoted,
        })
    }

    /// Returns the game of the specifications. Refuses with the first that applies of [`GameFault::DuplicateNode`],
    /// `UndefinedSuccessor`, `TooManyNodes` and `TooManyEdges`, or with [`Refusal::Memory`] if a request for memory is
    /// refused. Identifiers that rise already are not sorted.
    pub fn finish(self) -> Result<Game, Refusal>
        requires { 0 < length self }
        ensures game { IfOk result (λ game. IsGameOf self game) }
        ensures faultless { OnOk result (game_fault_of self ≡ None) }
        ensures refused { IfErr result (IsBuildRefusal self) }
    {
        let alloc = *self.ids.allocator();
        let forward = self.finish_forward()?;
        forward.with_predecessors(alloc)
    }

    /// Does the same as `finish` without predecessors, and without the memory that they take.
    pub fn finish_forward(self) -> Result<ForwardGame, Refusal>
        requires { 0 < length self }
        ensures game { IfOk result (λ forward. IsGameOf self forward) }
        ensures faultless { OnOk result (game_fault_of self ≡ None) }
        ensures refused { IfErr result (IsBuildRefusal self) }
    {
        if self.has_rising_ids() {
            return self.game_of_sorted();
        }
        let sorted = self.sorted_specs()?;
        if !sorted.has_rising_ids() {
            return Err(Refusal::Game(GameFault::DuplicateNode));
        }
        sorted.game_of_sorted()
    }

    /// Returns the forward game of specifications whose identifiers rise, or the first fault that applies.
    fn game_of_sorted(self) -> Result<ForwardGame, Refusal>
        requires some { 0 < length self }
        requires rising { IsStrictlyIncreasing (ids_of self) }
        ensures game { IfOk result (λ forward. IsGameOf self forward) }
        ensures faultless { OnOk result (game_fault_of self ≡ None) }
        ensures refused { IfErr result (IsBuildRefusal self) }
    {
        let alloc = *self.ids.allocator();
        let GameBuilder {
            ids,
            priorities,
            owners,
            mut successors,
            quoted,
        } = self;
        let listed = listed_ids(alloc, ids.as_slice())?;
        let count = ids.len();
        if !successors.resolve(&listed, count) {
            return Err(Refusal::Game(GameFault::UndefinedSuccessor));
        }
        if count > MOST_NODES {
            return Err(Refusal::Game(GameFault::TooManyNodes));
        }
        if successors.total() > MOST_SUCCESSORS {
            return Err(Refusal::Game(GameFault::TooManyEdges));
        }
        let forward = ForwardGame::of_columns(
            alloc, listed, priorities, owners, successors, quoted,
        )?;
        Ok(forward)
    }
}
