ghost use Rattle.std.specs.Prelude.{◌≡◌, ◌<◌, ◌≤◌, ◌↔◌, IsTrue, count_by, false};
ghost use Rattle.std.specs.Prelude.{filter, length, max, nat_lt, IfErr, IfOk};
ghost use Rattle.std.specs.List.{list_all, list_any};
ghost use Rattle.std.specs.Option.{SomeIff};
ghost use Rattle.omega_hoa_label.specs.Raw.{alias as alias_tree, conjunction, constant as constant_tree};
ghost use Rattle.omega_hoa_label.specs.Raw.{disjunction, group as group_tree, negation};
ghost use Rattle.omega_hoa_label.specs.Raw.{proposition as proposition_tree, raw_depth, raw_propositions};
ghost use Rattle.omega_hoa_expression.specs.Depth.{IsDeeper, counted};
ghost use Rattle.omega_text.specs.Cases.{IsMemory};
ghost use Rattle.omega_hoa_expression.specs.Limits.{most_depth, most_size};
ghost use Rattle.omega_hoa_label.specs.Bare.{bare, is_alias, is_bare};
ghost use Rattle.omega_hoa_label.specs.private.layout.Joining.{IsJoining, joined_by};

use crate::codes::ROOM;
use crate::compact::Compact;
use crate::label::{Label, LabelNode};
use crate::read_nodes::ReadNodes;
use omega_hoa_expression::{MOST_DEPTH, MOST_SIZE, deeper};
use omega_text::Refusal;
use std::alloc::Global;
use std::marker::Model;

/// A label of any depth as it is written, with alias names and parentheses. An alias name has depth 1.
///
/// Contracts see its tree. Reading, measuring, comparing and dropping it need no recursion. It takes 24 bytes, and
/// memory only if it has an alias, a proposition from 250 on or over 21 atoms, operators and parentheses.
#[derive(Debug)]
pub struct RawLabel {
    written: Compact,
}

impl Drop for RawLabel {
    fn drop(self) {
        let RawLabel { written: _ } = self;
    }
}

const _: () = prove!(std::mem::size_of::<RawLabel>() <= 24);

impl Model for RawLabel {
    ghost use Rattle.omega_hoa_label.specs.Raw.{RawLabelTree};
    ghost use Rattle.omega_hoa_label.specs.private.layout.Raw.{IsRawLabel, raw_label_code, raw_tree_of};

    ghost Value = { RawLabelTree };

    ghost coded = { raw_label_code };

    ghost view = { λ a. raw_tree_of a.written.nodes a.written.names };

    ghost invariant = { λ a. IsRawLabel a.written.nodes a.written.names a.written.depth };
}

impl RawLabel {
    ghost use Rattle.omega_hoa_label.specs.private.layout.Raw.{IsRawLabel, raw_tree_of};
    ghost use Rattle.omega_hoa_label.specs.Postfix.{AreOf, IsRawInPostfix, alias_names, raw_postfix};
    ghost use Rattle.omega_hoa_label.specs.Raw.{RawLabelTree};

    /// Makes the label `t` or `f`.
    pub fn constant(alloc: Global, value: bool) -> Result<RawLabel, Refusal>
        ensures ok { IfOk result (λ label. label ≡ constant_tree value) }
        ensures err { IfErr result IsMemory }
    {
        let nodes = [LabelNode::Constant(value)];
        RawLabel::of_nodes(alloc, nodes.as_slice(), &[], 1)
    }

    /// Makes the proposition `number`.
    pub fn proposition(alloc: Global, number: u32) -> Result<RawLabel, Refusal>
        ensures ok { IfOk result (λ label. label ≡ proposition_tree number) }
        ensures err { IfErr result IsMemory }
    {
        let nodes = [LabelNode::Proposition(number)];
        RawLabel::of_nodes(alloc, nodes.as_slice(), &[], 1)
    }

    /// Makes an alias of `name`, including its `@` if it comes from a text: `@a` is another name than `a`.
    /// [Refusal::Memory] also comes for a name of 2^32 bytes or more.
    pub fn alias(alloc: Global, name: &[u8]) -> Result<RawLabel, Refusal>
        ensures ok { IfOk result (λ label. label ≡ alias_tree name.now) }
        ensures err { IfErr result IsMemory }
    {
        let nodes = [LabelNode::Alias(name_length(name)?)];
        RawLabel::of_nodes(alloc, nodes.as_slice(), name, 1)
    }

    /// Puts `!` before the label, which is in parentheses only if it is a group. Refused with [AutomatonFault::TooDeep]
    /// if the result would be over 256 deep.
    pub fn not(self) -> Result<RawLabel, Refusal>
        ensures ok { IfOk result (λ label. label ≡ negation self) }
        ensures shallow { IfOk result (λ label. raw_depth label ≤ most_depth) }
        ensures err { IfErr result (IsDeeper (most_depth ≤ raw_depth self)) }
    {
        let depth = deeper(self.depth())?;
        let RawLabel { written } = self;
        let written = written.with_one(LabelNode::Not, depth)?;
        Ok(RawLabel { written })
    }

    /// Puts the label in parentheses. Refused with [AutomatonFault::TooDeep] if it would be over 256 deep.
    pub fn group(self) -> Result<RawLabel, Refusal>
        ensures ok { IfOk result (λ label. label ≡ group_tree self) }
        ensures shallow { IfOk result (λ label. raw_depth label ≤ most_depth) }
        ensures err { IfErr result (IsDeeper (most_depth ≤ raw_depth self)) }
    {
        let depth = deeper(self.depth())?;
        let RawLabel { written } = self;
        let written = written.with_one(LabelNode::Group, depth)?;
        Ok(RawLabel { written })
    }

    /// Joins both labels by `&`. Refused with [AutomatonFault::TooDeep] if the result would be over 256 deep.
    pub fn and(self, other: RawLabel) -> Result<RawLabel, Refusal>
        ensures ok { IfOk result (λ label. label ≡ conjunction self other) }
        ensures shallow { IfOk result (λ label. raw_depth label ≤ most_depth) }
        ensures err { IfErr result (IsDeeper (most_depth ≤ max (raw_depth self) (raw_depth other))) }
    {
        self.combination(other, LabelNode::And)
    }

    /// Joins both labels by `|`. Refused with [AutomatonFault::TooDeep] if the result would be over 256 deep.
    pub fn or(self, other: RawLabel) -> Result<RawLabel, Refusal>
        ensures ok { IfOk result (λ label. label ≡ disjunction self other) }
        ensures shallow { IfOk result (λ label. raw_depth label ≤ most_depth) }
        ensures err { IfErr result (IsDeeper (most_depth ≤ max (raw_depth self) (raw_depth other))) }
    {
        self.combination(other, LabelNode::Or)
    }

    /// Joins both labels by `operator`. Refused with [AutomatonFault::TooDeep] if the result would be over 256 deep.
    fn combination(self, other: RawLabel, operator: LabelNode) -> Result<RawLabel, Refusal>
        requires { IsJoining operator }
        ensures ok { IfOk result (λ label. label ≡ joined_by operator self other) }
        ensures shallow { IfOk result (λ label. raw_depth label ≤ most_depth) }
        ensures err { IfErr result (IsDeeper (most_depth ≤ max (raw_depth self) (raw_depth other))) }
    {
        let depth = deeper(self.depth().max(other.depth()))?;
        let RawLabel { written } = self;
        let RawLabel { written: others } = other;
        let written = written.combination(others, operator, depth)?;
        Ok(RawLabel { written })
    }

    /// Returns its depth up to 256, and 257 if it is deeper.
    pub fn depth(&self) -> u32
        ensures { result ≡ counted (raw_depth self.now) }
    {
        self.written.depth()
    }

    /// Whether it is over 256 deep.
    pub fn is_too_deep(&self) -> bool
        ensures { IsTrue result ↔ (most_depth < raw_depth self.now) }
    {
        self.depth() > MOST_DEPTH
    }

    /// Whether its propositions, without those in its aliases' definitions, are all below `count`. Takes no memory.
    pub fn propositions_below(&self, count: u32) -> bool
        ensures { result ≡ list_all (λ number. nat_lt number count) (raw_propositions self.now) }
    {
        self.written.propositions_below(count)
    }

    /// Whether it has an alias.
    pub fn has_alias(&self) -> bool
        ensures { result ≡ list_any is_alias (raw_postfix self.now) }
    {
        self.written.has_alias()
    }

    /// Returns the number of its atoms and operators without parentheses, if it has no alias.
    pub fn bare_size(&self) -> Option<usize>
        ensures { SomeIff result (list_any is_alias (raw_postfix self.now) ≡ false)
            (count_by is_bare (raw_postfix self.now)) }
    {
        self.written.bare_size()
    }

    /// Whether it has no alias, and its depth and number of nodes as it is written are within the limits of an expanded
    /// label. If so, it needs no counting.
    pub fn is_within_limits(&self) -> bool
        ensures no_alias { IsTrue result → list_any is_alias (raw_postfix self.now) ≡ false }
        ensures shallow { IsTrue result → raw_depth self.now ≤ most_depth }
        ensures small { IsTrue result → length (raw_postfix self.now) ≤ most_size }
        ensures each { list_any is_alias (raw_postfix self.now) ≡ false
            → raw_depth self.now ≤ most_depth
            → length (raw_postfix self.now) ≤ most_size → IsTrue result }
    {
        !self.has_alias() && !self.is_too_deep() && self.written.len() <= MOST_SIZE as usize
    }

    /// Drops the parentheses, in the memory that it has.
    #[inline(always)]
    pub fn without_parentheses(self) -> Label
        requires no_alias { list_any is_alias (raw_postfix self) ≡ false }
        requires shallow { raw_depth self ≤ most_depth }
        ensures { result ≡ bare self }
    {
        let RawLabel { written } = self;
        Label::of_written(written.without_parentheses())
    }

    /// Makes the label of `nodes` in postfix order, with its alias names and its depth as [`depth`](RawLabel::depth)
    /// returns it. The nodes are moved, or stay in the memory that they have.
    #[inline(always)]
    pub fn from_postfix(
        alloc: Global,
        nodes: ReadNodes,
        names: Vec<u8>,
        depth: u32,
    ) -> Result<RawLabel, Refusal>
        requires { IsRawInPostfix nodes names.items depth }
        ensures ok { IfOk result
            (λ label. (tree : RawLabelTree) → AreOf tree nodes names.items → label ≡ tree) }
        ensures err { IfErr result IsMemory }
    {
        RawLabel::of_read(alloc, nodes, names, depth)
    }

    /// Makes the label of `nodes` in postfix order, with its alias names and its depth.
    #[inline(always)]
    pub(crate) fn of_nodes(
        alloc: Global,
        nodes: &[LabelNode],
        names: &[u8],
        depth: u32,
    ) -> Result<RawLabel, Refusal>
        requires { IsRawLabel nodes.now names.now depth }
        ensures ok { IfOk result (λ label. label ≡ raw_tree_of nodes.now names.now) }
        ensures err { IfErr result IsMemory }
    {
        let written = Compact::copy_of_parts(alloc, nodes, names, depth)?;
        Ok(RawLabel { written })
    }

    /// Makes the label of `nodes` in postfix order, with its alias names and its depth, in the memory that they have.
    #[inline(always)]
    fn of_read(
        alloc: Global,
        nodes: ReadNodes,
        names: Vec<u8>,
        depth: u32,
    ) -> Result<RawLabel, Refusal>
        requires { IsRawLabel nodes names.items depth }
        ensures ok { IfOk result (λ label. label ≡ raw_tree_of nodes names.items) }
        ensures err { IfErr result IsMemory }
    {
        let written = Compact::of_read(alloc, nodes, names, depth)?;
        Ok(RawLabel { written })
    }

    /// Returns its nodes, parts before their operators; those kept in place are decoded into `room`.
    pub fn nodes<'a>(&'a self, room: &'a mut [LabelNode; 21]) -> &'a [LabelNode]
        ensures { result.now ≡ raw_postfix self.now }
    {
        self.written.nodes(room)
    }

    /// Returns its alias names from left to right, joined.
    pub fn names(&self) -> &[u8]
        ensures { result.now ≡ alias_names self.now }
    {
        self.written.names()
    }
}

impl PartialEq for RawLabel {
    ghost use Rattle.std.specs.Prelude.{nat_eq};
    ghost use Rattle.std.specs.Cmp.Lexicographic.{pointwise};
    ghost use Rattle.std.specs.Cmp.Rules.{comparing};
    ghost use Rattle.std.specs.Ordering.{eq_of_both, on};
    ghost use Rattle.std.proofs.Common.{rules};
    ghost use Rattle.omega_hoa_label.specs.contracts.label.LabelNodePartialEq.TheImpl as node;
    ghost use Rattle.omega_hoa_label.specs.contracts.label.LabelNodePartialEq.TheImpl.Laws.{laws-law};
    ghost use Rattle.omega_hoa_label.specs.Postfix.{alias_names, raw_postfix};

    ghost eq = { eq_of_both (on raw_postfix (pointwise node.ghosts.eq))
        (on alias_names (pointwise nat_eq)) };

    ghost laws = { Prim.search (comparing, rules, laws-law) };

    fn eq(&self, other: &RawLabel) -> bool {
        let mut room = ROOM;
        let mut room_of_other = ROOM;
        self.nodes(&mut room) == other.nodes(&mut room_of_other) && self.names() == other.names()
    }
}

impl Eq for RawLabel {
    ghost use Rattle.std.specs.Cmp.Rules.{comparing};
    ghost use Rattle.std.proofs.Common.{rules};
    ghost use Rattle.omega_hoa_label.specs.contracts.label.LabelNodeEq.TheImpl.Laws.{laws-law};

    ghost laws = { Prim.search (comparing, rules, laws-law) };
}

/// Returns the length of an alias name, as a node keeps it. Refused with [Refusal::Memory] if it does not fit in 32
/// bits; no name in a text is that long.
pub fn name_length(name: &[u8]) -> Result<u32, Refusal>
    ensures ok { IfOk result (λ count. count ≡ length name.now) }
    ensures err { IfErr result IsMemory }
{
    if name.len() > u32::MAX as usize {
        return Err(Refusal::Memory);
    }
    Ok(name.len() as u32)
}
