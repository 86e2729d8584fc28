ghost use Rattle.std.specs.Prelude.{◌≡◌, length, option_map};
ghost use Rattle.std.specs.List.{flat_map};
ghost use Rattle.std.specs.Option.{option_copied};

use crate::header::Header;
use crate::making::{Body, Gathered};
use crate::state::State;
use crate::tool::Tool;
use omega_hoa_acceptance::{Acc, AccName};
use omega_text::{ByteString, Numbers, Seq};
use std::alloc::Global;
use std::marker::Model;

/// An omega-automaton of the Hanoi format (HOA v1).
///
/// States are numbers from 0 up to their count, and so are sets and propositions. A state that is not among the defined
/// ones has no edges. Edges are numbered from 0 through all defined states, in the order written.
pub struct Automaton {
    tool: Option<Tool>,
    name: Option<ByteString>,
    state_count: u32,
    starts: Seq<Numbers>,
    propositions: Seq<ByteString>,
    acc_name: Option<AccName>,
    set_count: u32,
    acceptance: Acc,
    properties: Seq<ByteString>,
    unknown: Seq<Header>,
    defined: Seq<State>,
    edge_count: u32,
}

impl Model for Automaton {
    ghost use Rattle.std.specs.Coded.{codes};
    ghost use Rattle.omega_hoa_acceptance.specs.contracts.formula.Acc as acc;
    ghost use Rattle.omega_hoa_label.specs.contracts.label.Label as label;
    ghost use Rattle.omega_hoa_automaton.specs.Automaton.{Description};

    ghost Value = { Description };

    ghost coded = { Prim.hlevel (codes, label.the_row.coded, acc.the_row.coded) };

    ghost use Rattle.omega_hoa_automaton.specs.private.layout.Automaton.{description_of, IsLaidOut};

    ghost view = { description_of };

    ghost invariant = { IsLaidOut };
}

impl Drop for Automaton {
    // By hand, so that an automaton is dropped by a call at each exit of a function that owns it, not field by field.
    fn drop(self) {
        let Automaton {
            tool: _,
            name: _,
            state_count: _,
            starts: _,
            propositions: _,
            acc_name: _,
            set_count: _,
            acceptance: _,
            properties: _,
            unknown: _,
            defined: _,
            edge_count: _,
        } = self;
    }
}

impl Automaton {
    ghost use Rattle.omega_hoa_automaton.specs.Automaton.{IsAutomaton, edge_count, edges_from};
    ghost use Rattle.omega_hoa_automaton.specs.private.layout.Draft.{described};

    /// Makes the automaton of what was gathered and of the parts made of it.
    pub(crate) fn of_parts(
        alloc: Global,
        gathered: Gathered,
        states: u32,
        sets: u32,
        body: Body,
    ) -> Automaton
        requires automaton { IsAutomaton
            (described gathered states sets body.acceptance body.defined) }
        requires counted { body.edge_count ≡ length (flat_map edges_from body.defined) }
        ensures { result ≡ described gathered states sets body.acceptance body.defined }
    {
        let Gathered {
            tool,
            name,
            starts,
            propositions,
            acc_name,
            acceptance: _written,
            properties,
            unknown,
        } = gathered;
        Automaton {
            tool,
            name,
            state_count: states,
            starts: Seq::from_vec(starts),
            propositions: propositions.unwrap_or(Seq::new(alloc)),
            acc_name,
            set_count: sets,
            acceptance: body.acceptance,
            properties: Seq::from_vec(properties),
            unknown: Seq::from_vec(unknown),
            defined: body.defined,
            edge_count: body.edge_count,
        }
    }

    /// States what each automaton keeps: numbers below their counts, each state defined at most once, and the limits.
    /// Does nothing: it hands on the type's invariant.
    pub fn keeps_limits(&self)
        ensures { IsAutomaton self.now }
    {
        // A field is read, since only then a proof knows the invariant.
        let _count = self.state_count;
    }

    /// Returns the tool that wrote it, if it says so.
    pub fn tool(&self) -> Option<&Tool>
        ensures { option_copied result ≡ self.now.tool }
    {
        self.tool.as_ref()
    }

    /// Returns its name between the quotes, if it has one.
    pub fn name(&self) -> Option<&[u8]>
        ensures { option_map (λ name. name.now) result ≡ self.now.name }
    {
        match &self.name {
            Some(name) => Some(name.as_slice()),
            None => None,
        }
    }

    /// Returns the count of states, defined or not, which is at most 2,147,483,647 if the automaton was read.
    pub fn state_count(&self) -> u32
        ensures { result ≡ self.now.states }
    {
        self.state_count
    }

    /// Returns the initial choices in the order written, each with the states that it begins in at once.
    pub fn starts(&self) -> &[Numbers]
        ensures { result.now ≡ self.now.starts }
    {
        self.starts.as_slice()
    }

    /// Returns the names of the propositions between their quotes, at most 1,024, no two alike.
    pub fn propositions(&self) -> &[ByteString]
        ensures { result.now ≡ self.now.propositions }
    {
        self.propositions.as_slice()
    }

    /// Returns the name of its acceptance, if it has one.
    pub fn acc_name(&self) -> Option<&AccName>
        ensures { option_copied result ≡ self.now.acc_name }
    {
        self.acc_name.as_ref()
    }

    /// Returns the count of sets.
    pub fn set_count(&self) -> u32
        ensures { result ≡ self.now.sets }
    {
        self.set_count
    }

    /// Returns its acceptance formula, whose sets are below their count.
    pub fn acceptance(&self) -> &Acc
        ensures { result.now ≡ self.now.acceptance }
    {
        &self.acceptance
    }

    /// Returns the properties of all items in the order written. They are not judged.
    pub fn properties(&self) -> &[ByteString]
        ensures { result.now ≡ self.now.properties }
    {
        self.properties.as_slice()
    }

    /// Returns the headers that the format leaves open in the order written.
    pub fn unknown(&self) -> &[Header]
        ensures { result.now ≡ self.now.unknown }
    {
        self.unknown.as_slice()
    }

    /// Returns the states that the body defines in the order written, each at most once.
    pub fn defined(&self) -> &[State]
        ensures { result.now ≡ self.now.defined }
    {
        self.defined.as_slice()
    }

    /// Returns the number of edges of all defined states.
    pub fn edge_count(&self) -> u32
        ensures { result ≡ edge_count self.now }
    {
        self.edge_count
    }
}
