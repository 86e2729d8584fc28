//! Breadth-first search: each state that is reached is met on a shortest walk.
ghost use Rattle.std.specs.Prelude.{◌≡◌, ◌<◌, [], false, length, replicate};
ghost use Rattle.std.specs.Prelude.{vec_len, All, IfOk, IfNone, IfSome, OnOk};
ghost use Rattle.omega_graph.specs.private.Searching.{AreFollowed, AreMarked, Grows, GrowsFrom, IsMetAt};
ghost use Rattle.omega_graph.specs.private.Searching.{IsSearched, IsSearchedTo, IsStart, IsUnmet};
ghost use Rattle.omega_graph.specs.private.Searching.{IsWalkToMet, LeadBack, mark_at, meeting, met_at};

use crate::links::Links;
use crate::met::MetState;
use std::alloc::{AllocError, Global};
use std::marker::Model;

/// The states that a search met, in its order.
#[derive(Drop)]
pub(crate) struct BreadthSearch {
    // By state whether it was met.
    marks: Vec<bool>,
    met: Vec<MetState>,
}

impl Model for BreadthSearch {
    ghost use Rattle.omega_graph.specs.private.Searching.{Trace};

    ghost Value = { Trace };

    ghost view = { λ s. record { marks = s.marks.items; met = s.met.items } };
}

impl BreadthSearch {
    /// Returns a search among `count` states that met none.
    fn new(alloc: Global, count: usize) -> Result<BreadthSearch, AllocError>
        ensures marks { IfOk result (λ search. search.marks ≡ replicate count false) }
        ensures met { IfOk result (λ search. search.met ≡ []) }
    {
        let marks = vec![in alloc; false; count]?;
        Ok(BreadthSearch {
            marks,
            met: Vec::new(alloc),
        })
    }

    /// Meets a state unless it was met before.
    #[tactic(auto, unfolding(crate::specs::private::Searching::meeting))]
    fn meet(&mut self, met: MetState) -> Result<(), AllocError>
        requires { met.state < length self.old.marks }
        ensures { OnOk result (self.new ≡ meeting self.old met) }
    {
        let index = met.state as usize;
        if !self.marks[index] {
            self.marks[index] = true;
            self.met.push(met)?;
        }
        Ok(())
    }

    /// Meets the states `sources`, with which the search begins.
    fn begin(&mut self, sources: &[u32]) -> Result<(), AllocError>
        requires { All (λ source. source < length self.old.marks) sources.now }
        ensures grows { OnOk result (Grows (IsStart sources.now) self.old self.new) }
        ensures met { OnOk result (AreMarked sources.now self.new.marks) }
    {
        for source in sources {
            self.meet(MetState {
                state: *source,
                edge: 0,
                origin: 0,
            })?;
        }
        Ok(())
    }

    /// Meets the states to which edges lead from the one met at the index `origin`. `links` are those of the states
    /// that the edges leave.
    fn follow(&mut self, links: &Links<'_>, enters: &[u32], origin: u32) -> Result<(), AllocError>
        requires origin { origin < length self.old.met }
        requires state { (met_at self.old.met origin).state < links.now.count }
        requires even { length enters.now ≡ length links.now.states }
        requires enters { All (λ state. state < length self.old.marks) enters.now }
        ensures grows { OnOk result (GrowsFrom links.now.states enters.now origin self.old self.new) }
        ensures followed { OnOk result
            (AreFollowed links.now.states enters.now (met_at self.old.met origin).state self.new.marks) }
    {
        let mut left = links.last(self.met[origin as usize].state as usize);
        while left > 0 {
            let edge = left as usize - 1;
            self.meet(MetState {
                state: enters[edge],
                edge: left,
                origin,
            })?;
            left = links.before(edge);
        }
        Ok(())
    }

    /// Whether `state` was met.
    pub(crate) fn has_met(&self, state: u32) -> bool
        requires { state < length self.now.marks }
        ensures { result ≡ mark_at self.now.marks state }
    {
        self.marks[state as usize]
    }

    /// Returns for each state whether it was met.
    pub(crate) fn into_marks(self) -> Vec<bool>
        ensures marks { result.items ≡ self.marks }
        ensures count { vec_len result ≡ length self.marks }
    {
        let BreadthSearch { marks, met: _ } = self;
        marks
    }

    /// Returns the index at which `state` was met, or none.
    pub(crate) fn index_of(&self, state: u32) -> Option<usize>
        ensures some { IfSome result (IsMetAt self.now.met state) }
        ensures none { IfNone result (IsUnmet self.now.met state) }
    {
        for (index, met) in self.met.iter().enumerate() {
            if met.state == state {
                return Some(index);
            }
        }
        None
    }

    /// Returns the edges of the walk along which the state at `index` was met.
    pub(crate) fn walk_to(
        &self,
        alloc: Global,
        edges: &[u32],
        index: usize,
    ) -> Result<Vec<u32>, AllocError>
        requires index { index < length self.now.met }
        requires back { LeadBack (length edges.now) self.now.met }
        ensures { IfOk result (λ walk. IsWalkToMet self.now.met edges.now index walk.items) }
    {
        let mut walk = Vec::new(alloc);
        let mut at = index;
        while self.met[at].edge > 0 {
            let met = self.met[at];
            walk.push(edges[met.edge as usize - 1])?;
            at = met.origin as usize;
        }
        walk.reverse();
        Ok(walk)
    }
}

/// Searches the states reached from `sources` by edges that go from `leaves` to `enters`, all below `count`. Linear.
pub(crate) fn search_from(
    alloc: Global,
    count: usize,
    leaves: &[u32],
    enters: &[u32],
    sources: &[u32],
) -> Result<BreadthSearch, AllocError>
    requires even { length enters.now ≡ length leaves.now }
    requires leaves { All (λ state. state < count) leaves.now }
    requires enters { All (λ state. state < count) enters.now }
    requires sources { All (λ state. state < count) sources.now }
    ensures { IfOk result (IsSearched leaves.now enters.now sources.now count) }
{
    let links = Links::new(alloc, count, leaves)?;
    let mut search = BreadthSearch::new(alloc, count)?;
    search.begin(sources)?;
    let mut index = 0;
    while index < search.met.len() {
        if index > u32::MAX as usize {
            return Err(AllocError);
        }
        search.follow(&links, enters, index as u32)?;
        index += 1;
    }
    Ok(search)
}

/// Searches the states reached from `sources` by edges that go from `leaves` to `enters`, all below `count`. Stops once
/// `target` is met. Linear.
pub(crate) fn search_to(
    alloc: Global,
    count: usize,
    leaves: &[u32],
    enters: &[u32],
    sources: &[u32],
    target: u32,
) -> Result<BreadthSearch, AllocError>
    requires even { length enters.now ≡ length leaves.now }
    requires leaves { All (λ state. state < count) leaves.now }
    requires enters { All (λ state. state < count) enters.now }
    requires sources { All (λ state. state < count) sources.now }
    requires target { target < count }
    ensures { IfOk result (IsSearchedTo leaves.now enters.now sources.now count target) }
{
    let links = Links::new(alloc, count, leaves)?;
    let mut search = BreadthSearch::new(alloc, count)?;
    search.begin(sources)?;
    let mut index = 0;
    while index < search.met.len() {
        if search.has_met(target) {
            return Ok(search);
        }
        if index > u32::MAX as usize {
            return Err(AllocError);
        }
        search.follow(&links, enters, index as u32)?;
        index += 1;
    }
    Ok(search)
}
