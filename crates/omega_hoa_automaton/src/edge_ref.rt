ghost use Rattle.std.specs.Prelude.{◌≡◌};
ghost use Rattle.std.specs.Option.{option_copied};

use omega_hoa_label::Label;
use std::marker::Model;

/// An edge among the edges of a state, wherever its parts are kept. Contracts see the edge.
#[derive(Debug, Drop)]
pub struct EdgeRef<'a> {
    pub(crate) label: Option<&'a Label>,
    pub(crate) targets: &'a [u32],
    pub(crate) marks: &'a [u32],
}

impl<'a> Model for EdgeRef<'a> {
    ghost use Rattle.std.specs.Coded.{codes};
    ghost use Rattle.omega_hoa_label.specs.contracts.label.Label as expanded_label;
    ghost use Rattle.omega_hoa_automaton.specs.declared.edge.Edge.{Edge};

    ghost Value = { Edge };

    ghost coded = { Prim.hlevel (codes, expanded_label.the_row.coded) };

    ghost use Rattle.omega_hoa_automaton.specs.private.layout.Edges.{referred};

    ghost view = { referred };
}

impl<'a> EdgeRef<'a> {
    /// Returns the label with its aliases replaced, or none.
    pub fn label(&self) -> Option<&'a Label>
        ensures { option_copied result ≡ self.now.label }
    {
        self.label
    }

    /// Returns the states that it leads to, at least one; two or more are a universal branch.
    pub fn targets(&self) -> &'a [u32]
        ensures { result.now ≡ self.now.targets }
    {
        self.targets
    }

    /// Returns the sets that it is in, rising, each once.
    pub fn marks(&self) -> &'a [u32]
        ensures { result.now ≡ self.now.marks }
    {
        self.marks
    }
}
