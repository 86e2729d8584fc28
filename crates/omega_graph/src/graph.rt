ghost use Rattle.std.specs.Prelude.{◌≡◌, ◌<◌, ◌^◌, [], ◌∷◌, ◌++◌, length, OnOk, OnErr, IsOkUnless};
ghost use Rattle.omega_graph.specs.Graph.{edge_of, ends_at};

use crate::edge::Edge;
use omega_text::Refusal;
use std::alloc::Global;
use std::marker::Model;

/// A graph as a list of edges. Its states are numbered below a count, its edges from 0 on in the order in which they
/// were added.
#[derive(Debug)]
pub struct Graph {
    states: u32,
    edges: Vec<Edge>,
}

impl Drop for Graph {
    fn drop(self) {
        let Graph {
            states: _,
            edges: _,
        } = self;
    }
}

impl Model for Graph {
    ghost use Rattle.omega_graph.specs.Graph.{Shape, IsGraphShape};

    ghost Value = { Shape };

    ghost view = { λ g. record { states = g.states; edges = g.edges.items } };

    ghost invariant = { λ g. IsGraphShape (record { states = g.states; edges = g.edges.items }) };
}

impl Graph {
    /// Returns a graph of `states` states without edges. Takes no memory.
    pub fn new(alloc: Global, states: u32) -> Graph
        ensures states { result.states ≡ states }
        ensures edges { result.edges ≡ [] }
    {
        Graph {
            states,
            edges: Vec::new(alloc),
        }
    }

    /// Adds an edge from `from` to `to`. Its number is the count of edges before. Refuses an edge past 2^32 - 1 edges
    /// by [`Refusal::Memory`] too.
    pub fn add(&mut self, from: u32, to: u32) -> Result<(), Refusal>
        requires from { from < self.old.states }
        requires to { to < self.old.states }
        ensures states { self.new.states ≡ self.old.states }
        ensures ok { OnOk result (self.new.edges ≡ self.old.edges ++ edge_of from to ∷ []) }
        ensures err { OnErr result (self.new ≡ self.old) }
        ensures memory { IsOkUnless result Refusal.Memory }
    {
        if self.edges.len() >= u32::MAX as usize {
            return Err(Refusal::Memory);
        }
        self.edges.push(Edge { from, to })?;
        Ok(())
    }

    /// Returns the number of states.
    pub fn states(&self) -> u32
        ensures { result ≡ self.now.states }
    {
        self.states
    }

    /// Returns the number of edges.
    pub fn len(&self) -> usize
        ensures count { result ≡ length self.now.edges }
        ensures numbered { result < 2 ^ 32 }
    {
        self.edges.len()
    }

    /// Returns the state that `edge` leaves.
    pub fn from(&self, edge: u32) -> u32
        requires { edge < length self.now.edges }
        ensures from { result ≡ (ends_at self.now edge).from }
        ensures inside { result < self.now.states }
    {
        self.edges[edge as usize].from
    }

    /// Returns the state that `edge` enters.
    pub fn to(&self, edge: u32) -> u32
        requires { edge < length self.now.edges }
        ensures to { result ≡ (ends_at self.now edge).to }
        ensures inside { result < self.now.states }
    {
        self.edges[edge as usize].to
    }
}
