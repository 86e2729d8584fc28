ghost use Rattle.std.specs.Prelude.{◌≡◌, [], ◌∷◌, ◌++◌, get_or, IsOkUnless, OnOk};
ghost use Rattle.omega_graph.specs.Graph.{edge_of};
ghost use Rattle.omega_lang_product.specs.JointEdges.{AreJoints};

use omega_graph::Edge;
use omega_text::{Numbers, Refusal};
use std::alloc::Global;

/// Edges of a product, by their numbers. Each takes an edge of the first automaton and one of the second together.
#[derive(Debug)]
pub struct JointEdges {
    /// The numbers of the pairs that each leads between.
    pub ends: Vec<Edge>,
    /// The marks of each: those of the edge of the first automaton, and then those of the other, after the sets of the
    /// first. A set may be listed twice.
    pub marks: Vec<Numbers>,
    /// The number of the edge of the first automaton that each takes.
    pub firsts: Vec<u32>,
    /// The number of the edge of the second automaton that each takes.
    pub seconds: Vec<u32>,
}

impl Drop for JointEdges {
    fn drop(self) {
        let JointEdges {
            ends: _,
            marks: _,
            firsts: _,
            seconds: _,
        } = self;
    }
}

impl JointEdges {
    /// Returns a table without edges.
    pub(crate) fn new(alloc: Global) -> JointEdges
        ensures { AreJoints [] result }
    {
        JointEdges {
            ends: Vec::new(alloc),
            marks: Vec::new(alloc),
            firsts: Vec::new(alloc),
            seconds: Vec::new(alloc),
        }
    }

    /// Appends an edge.
    pub(crate) fn push(
        &mut self,
        ends: Edge,
        marks: Numbers,
        first: u32,
        second: u32,
    ) -> Result<(), Refusal>
        ensures ends { OnOk result (self.new.ends.items ≡ self.old.ends.items ++ ends ∷ []) }
        ensures marks { OnOk result (self.new.marks.items ≡ self.old.marks.items ++ marks ∷ []) }
        ensures firsts { OnOk result (self.new.firsts.items ≡ self.old.firsts.items ++ first ∷ []) }
        ensures seconds { OnOk result
            (self.new.seconds.items ≡ self.old.seconds.items ++ second ∷ []) }
        ensures memory { IsOkUnless result Refusal.Memory }
    {
        self.ends.push(ends)?;
        self.marks.push(marks)?;
        self.firsts.push(first)?;
        self.seconds.push(second)?;
        Ok(())
    }

    /// Returns the number of the pair that the edge at `place` leads to, 0 past the last.
    pub(crate) fn target(&self, place: usize) -> u32
        ensures { result ≡ (get_or self.now.ends.items place (edge_of 0 0)).to }
    {
        match self.ends.get(place) {
            Some(ends) => ends.to,
            None => 0,
        }
    }

    /// Returns the marks of the edge at `place`, none past the last.
    pub(crate) fn marks(&self, place: usize) -> &[u32]
        ensures { result.now ≡ get_or self.now.marks.items place [] }
    {
        if place < self.marks.len() {
            self.marks[place].as_slice()
        } else {
            &[]
        }
    }

    /// Returns the number of the edge of the first automaton that the edge at `place` takes, 0 past the last.
    pub(crate) fn first_edge(&self, place: usize) -> u32
        ensures { result ≡ get_or self.now.firsts.items place 0 }
    {
        self.firsts.get(place).copied().unwrap_or(0)
    }

    /// Returns the number of the edge of the second automaton that the edge at `place` takes, 0 past the last.
    pub(crate) fn second_edge(&self, place: usize) -> u32
        ensures { result ≡ get_or self.now.seconds.items place 0 }
    {
        self.seconds.get(place).copied().unwrap_or(0)
    }
}
