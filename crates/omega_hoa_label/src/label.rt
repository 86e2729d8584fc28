//! Labels, held in little memory.

ghost use Rattle.std.specs.Prelude.{◌≡◌, ◌≤◌, IfErr, IfOk, IfSome};
ghost use Rattle.omega_text.specs.Cases.{IsMemory};

use crate::codes::ROOM;
use crate::compact::Compact;
use crate::notation::Notation;
use omega_text::{Refusal, Seq};
use std::alloc::Global;
use std::marker::Model;

/// A node of a label, expanded or as it is written. Its parts precede it. The node of an alias has the length of its
/// name.
///
/// Both kinds of labels have the same nodes, so that a label without aliases is expanded in the memory that it has.
#[derive(Clone, Copy, Debug, Default, PartialEq, Eq)]
pub enum LabelNode {
    #[default]
    And,
    Or,
    Not,
    Group,
    Constant(bool),
    Proposition(u32),
    Alias(u32),
}

/// A label without aliases and parentheses, at most 256 deep.
///
/// Contracts see its tree. Reading, comparing and dropping it need no recursion. It takes 24 bytes, and memory only if
/// it has a proposition from 250 on or over 21 atoms and operators.
#[derive(Debug)]
pub struct Label {
    written: Compact,
}

impl Drop for Label {
    fn drop(self) {
        let Label { written: _ } = self;
    }
}

const _: () = prove!(std::mem::size_of::<Label>() <= 24);

impl Model for Label {
    ghost use Rattle.omega_hoa_label.specs.Label.{LabelTree};
    ghost use Rattle.omega_hoa_label.specs.private.layout.Label.{IsLabelInPostfix, label_code, tree_of};

    ghost Value = { LabelTree };

    ghost coded = { label_code };

    ghost view = { λ a. tree_of a.written.nodes };

    ghost invariant = { λ a. IsLabelInPostfix a.written.nodes };
}

impl Label {
    ghost use Rattle.omega_hoa_label.specs.Label.{label_depth, label_size};
    ghost use Rattle.omega_hoa_label.specs.Label.{LabelTree};
    ghost use Rattle.omega_hoa_label.specs.Postfix.{IsShallowInPostfix, postfix};
    ghost use Rattle.omega_hoa_label.specs.Renumbering.{relabelled};
    ghost use Rattle.omega_hoa_label.specs.private.layout.Label.{IsLabelInPostfix, tree_of};
    ghost use Rattle.omega_hoa_expression.specs.Limits.{most_depth};

    /// States what each label keeps: it is at most 256 deep. Does nothing: it hands on the type's invariant.
    pub fn keeps_limits(&self)
        ensures { label_depth self.now ≤ most_depth }
    {
        // A field is read, since only then a proof knows the invariant.
        let _size = self.written.len();
    }

    /// Returns the number of its atoms and operators.
    pub fn size(&self) -> usize
        ensures { result ≡ label_size self.now }
    {
        self.written.len()
    }

    /// Makes the label of `nodes` in postfix order, in the memory that they have.
    pub fn from_postfix(alloc: Global, nodes: Vec<LabelNode>) -> Result<Label, Refusal>
        requires { IsShallowInPostfix nodes.items }
        ensures ok { IfOk result
            (λ label. (tree : LabelTree) → nodes.items ≡ postfix tree → label ≡ tree) }
        ensures err { IfErr result IsMemory }
    {
        let notation = Notation {
            nodes: Seq::from_vec(nodes),
            names: Seq::new(alloc),
            depth: 0,
        };
        Ok(Label::of_written(Compact::of(alloc, notation)?))
    }

    /// Makes the label of `nodes` in postfix order, in as much memory as they need.
    pub(crate) fn of_slice(alloc: Global, nodes: &[LabelNode]) -> Result<Label, Refusal>
        requires { IsLabelInPostfix nodes.now }
        ensures ok { IfOk result (λ label. label ≡ tree_of nodes.now) }
        ensures err { IfErr result IsMemory }
    {
        Ok(Label::of_written(Compact::copy_of_parts(alloc, nodes, &[], 0)?))
    }

    /// Makes the label of `written`, which has no aliases and parentheses. Its depth is not used.
    pub(crate) fn of_written(written: Compact) -> Label
        requires { IsLabelInPostfix written.nodes }
        ensures { result ≡ tree_of written.nodes }
    {
        Label { written }
    }

    /// Returns the label over other propositions, whose numbers `places` gives. Returns none if it is not kept in
    /// place, or no longer fits there. Takes no memory.
    pub(crate) fn over_propositions_in_place(&self, places: &[u32]) -> Option<Label>
        ensures { IfSome result (λ label. label ≡ relabelled places.now self.now) }
    {
        let written = self.written.over_propositions_in_place(places)?;
        Some(Label::of_written(written))
    }

    /// Returns its nodes, parts before their operators; those kept in place are decoded into `room`.
    pub fn nodes<'a>(&'a self, room: &'a mut [LabelNode; 21]) -> &'a [LabelNode]
        ensures nodes { result.now ≡ postfix self.now }
        ensures shallow { label_depth self.now ≤ most_depth }
    {
        self.written.nodes(room)
    }
}

impl PartialEq for Label {
    ghost use Rattle.std.specs.Cmp.Lexicographic.{pointwise};
    ghost use Rattle.std.specs.Cmp.Rules.{comparing};
    ghost use Rattle.std.specs.Ordering.{on};
    ghost use Rattle.std.proofs.Common.{rules};
    ghost use Rattle.omega_hoa_label.specs.contracts.label.LabelNodePartialEq.TheImpl as node;
    ghost use Rattle.omega_hoa_label.specs.contracts.label.LabelNodePartialEq.TheImpl.Laws.{laws-law};
    ghost use Rattle.omega_hoa_label.specs.Postfix.{postfix};

    ghost eq = { on postfix (pointwise node.ghosts.eq) };

    ghost laws = { Prim.search (comparing, rules, laws-law) };

    fn eq(&self, other: &Label) -> bool {
        let mut room = ROOM;
        let mut room_of_other = ROOM;
        self.nodes(&mut room) == other.nodes(&mut room_of_other)
    }
}

impl Eq for Label {
    ghost use Rattle.std.specs.Cmp.Rules.{comparing};
    ghost use Rattle.std.proofs.Common.{rules};
    ghost use Rattle.omega_hoa_label.specs.contracts.label.LabelNodeEq.TheImpl.Laws.{laws-law};

    ghost laws = { Prim.search (comparing, rules, laws-law) };
}
