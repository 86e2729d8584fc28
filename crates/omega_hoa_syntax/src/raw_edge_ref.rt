ghost use Rattle.std.specs.Prelude.{◌≡◌, option_map};
ghost use Rattle.std.specs.Option.{option_copied};

use omega_hoa_label::RawLabel;
use std::marker::Model;

/// An edge among the edges of a state, wherever its parts are kept. Contracts see the edge.
#[derive(Debug, Drop)]
pub struct RawEdgeRef<'a> {
    pub(crate) label: Option<&'a RawLabel>,
    pub(crate) targets: &'a [u32],
    pub(crate) marks: Option<&'a [u32]>,
}

impl<'a> Model for RawEdgeRef<'a> {
    ghost use Rattle.std.specs.Coded.{codes};
    ghost use Rattle.omega_hoa_label.specs.contracts.raw.RawLabel as raw_label;
    ghost use Rattle.omega_hoa_syntax.specs.declared.raw_edge.RawEdge.{RawEdge};

    ghost Value = { RawEdge };

    ghost coded = { Prim.hlevel (codes, raw_label.the_row.coded) };

    ghost use Rattle.omega_hoa_syntax.specs.private.layout.Edges.{referred};

    ghost view = { referred };
}

impl<'a> RawEdgeRef<'a> {
    /// Returns the label between brackets, or none.
    pub fn label(&self) -> Option<&'a RawLabel>
        ensures { option_copied result ≡ self.now.label }
    {
        self.label
    }

    /// Returns the states that are joined by `&`, at least one.
    pub fn targets(&self) -> &'a [u32]
        ensures { result.now ≡ self.now.targets }
    {
        self.targets
    }

    /// Returns the sets between braces in the order written, repeats kept, or none without braces.
    pub fn marks(&self) -> Option<&'a [u32]>
        ensures { option_map (λ sets. sets.now) result ≡ self.now.marks }
    {
        self.marks
    }
}
