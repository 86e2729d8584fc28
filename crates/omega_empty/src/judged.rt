ghost use Rattle.std.specs.Prelude.{◌≡◌, ◌++◌, ◌<◌, ◌≤◌};
ghost use Rattle.omega_text.specs.Limits.{most_number};
ghost use Rattle.omega_hoa_automaton.specs.Automaton.{edge_count, edges_of};
ghost use Rattle.omega_empty.specs.Counters.{counter_after, counters, priority_at_counter};
ghost use Rattle.omega_empty.specs.EmptinessGame.{is_usable, sink_id, span};

use crate::edge_ranges::EdgeRange;
use crate::kinds::counters_of;
use crate::marks::{counter_after, edge_priority};
use omega_hoa_acceptance::AccKind;
use omega_hoa_automaton::{Automaton, EdgeRef, State};
use std::marker::Model;

/// An automaton and what was judged of it. The nodes of its game are made from this.
#[derive(Drop)]
pub(crate) struct Judged<'a> {
    pub(crate) automaton: &'a Automaton,
    pub(crate) kind: AccKind,
    /// Which edges are usable, by number.
    pub(crate) usable: Vec<bool>,
    /// The numbers of the edges of each state, by state.
    pub(crate) ranges: Vec<EdgeRange>,
}

impl<'a> Model for Judged<'a> {
    ghost use Rattle.std.specs.Coded.{codes};
    ghost use Rattle.omega_hoa_automaton.specs.contracts.automaton.Automaton as description;
    ghost use Rattle.omega_empty.specs.private.layout.Ready.{IsReady, JudgedAutomaton, judged_automaton};

    ghost Value = { JudgedAutomaton };

    ghost coded = { Prim.hlevel (codes, description.the_row.coded) };

    ghost view = { λ j. judged_automaton j.automaton.now j.kind j.usable.items j.ranges.items };

    ghost invariant = { λ j.
        IsReady (judged_automaton j.automaton.now j.kind j.usable.items j.ranges.items) };
}

impl<'a> Judged<'a> {
    ghost use Rattle.omega_empty.specs.private.layout.Marks.{AreMarksBelow};
    ghost use Rattle.omega_empty.specs.private.layout.Ranges.{IsRangeOf};
    ghost use Rattle.omega_empty.specs.private.layout.Ready.{IsReady};

    /// Hands on to the proof what was judged of the automaton. Does nothing when run.
    pub(crate) fn keeps_ready(&self)
        ensures { IsReady self.now }
    {
        // A field is read, since only then a proof knows the invariant.
        let _kind = self.kind;
    }

    /// Returns the number of states.
    pub(crate) fn states(&self) -> u32
        ensures { result ≡ self.now.automaton.states }
    {
        self.automaton.state_count()
    }

    /// Returns the states that the body defines, in the order written.
    pub(crate) fn defined(&self) -> &[State]
        ensures { result.now ≡ self.now.automaton.defined }
    {
        self.automaton.defined()
    }

    /// Returns which edges are usable, by number.
    pub(crate) fn usable_flags(&self) -> &[bool]
        ensures { result.now ≡ self.now.usable }
    {
        self.usable.as_slice()
    }

    /// Whether the edge of this `number` is usable.
    pub(crate) fn is_usable(&self, number: usize) -> bool
        requires { number < edge_count self.now.automaton }
        ensures { result ≡ is_usable self.now.usable number }
    {
        self.usable[number]
    }

    /// Returns the numbers of the edges of `state`.
    pub(crate) fn range(&self, state: u32) -> EdgeRange
        requires { state < self.now.automaton.states }
        ensures { IsRangeOf (edges_of self.now.automaton) state result }
    {
        self.ranges[state as usize]
    }

    /// Returns the number of counters.
    pub(crate) fn counters(&self) -> u32
        ensures { result ≡ counters self.now.kind }
    {
        counters_of(self.kind)
    }

    /// Returns the number of identifiers of a counter.
    pub(crate) fn span(&self) -> u32
        ensures { result ≡ span self.now.automaton }
    {
        self.automaton.state_count() + self.automaton.edge_count()
    }

    /// Returns the identifier of the sink.
    pub(crate) fn sink(&self) -> u32
        ensures { result ≡ sink_id self.now.kind self.now.automaton }
    {
        self.keeps_ready();
        self.counters() * self.span()
    }

    /// Returns the priority of `edge`, which leaves `state`, at `counter`.
    pub(crate) fn priority(&self, counter: u32, state: &State, edge: &EdgeRef<'_>) -> u32
        requires counter { counter < counters self.now.kind }
        requires own { AreMarksBelow self.now.kind state.now.marks }
        requires marks { AreMarksBelow self.now.kind edge.now.marks }
        ensures value { result
            ≡ priority_at_counter self.now.kind counter (state.now.marks ++ edge.now.marks) }
        ensures writable { result ≤ most_number }
    {
        edge_priority(self.kind, counter, state, edge)
    }

    /// Returns the counter after `edge`, which leaves `state`, at `counter`.
    pub(crate) fn counter_after(&self, counter: u32, state: &State, edge: &EdgeRef<'_>) -> u32
        requires { counter < counters self.now.kind }
        ensures value { result
            ≡ counter_after self.now.kind counter (state.now.marks ++ edge.now.marks) }
        ensures below { result < counters self.now.kind }
    {
        counter_after(self.kind, counter, state, edge)
    }
}
