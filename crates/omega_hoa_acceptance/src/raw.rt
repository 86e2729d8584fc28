ghost use Rattle.std.specs.Prelude.{◌≡◌, ◌<◌, ◌≤◌, ◌↔◌, IsTrue, max, nat_lt, IfErr, IfOk};
ghost use Rattle.std.specs.List.{list_all};
ghost use Rattle.omega_hoa_acceptance.specs.Raw.{atom as atom_tree, conjunction, constant as constant_tree};
ghost use Rattle.omega_hoa_acceptance.specs.Raw.{disjunction, group as group_tree, raw_acc_depth};
ghost use Rattle.omega_hoa_expression.specs.Depth.{IsDeeper, counted};
ghost use Rattle.omega_text.specs.Cases.{IsMemory};
ghost use Rattle.omega_hoa_expression.specs.Limits.{most_depth};
ghost use Rattle.omega_hoa_acceptance.specs.private.layout.Plain.{set_below};
ghost use Rattle.omega_hoa_acceptance.specs.private.layout.Joining.{IsJoining, joined_by};

use crate::formula::Acc;
use crate::plain::{depth_of, nodes_of};
use omega_hoa_expression::{MOST_DEPTH, append, deeper, singleton, with_one};
use omega_text::{AutomatonFault, Refusal, Seq};
use std::alloc::Global;
use std::marker::Model;

/// A node of an acceptance formula as it is written. Its parts precede it. An atom has the length of its name, whether
/// `!` precedes its set, and the set.
#[derive(Clone, Copy, Debug, PartialEq, Eq)]
pub(crate) enum RawAccNode {
    Constant(bool),
    Atom(usize, bool, u32),
    And,
    Or,
    Group,
}

/// An acceptance formula of any depth as it is written, with parentheses and the identifiers of its atoms, which may be
/// other than `Fin` and `Inf`.
///
/// Contracts see its tree. Reading, measuring, comparing and dropping it need no recursion.
#[derive(Debug, PartialEq, Eq)]
pub struct RawAcc {
    nodes: Seq<RawAccNode>,
    names: Seq<u8>,
    depth: u32,
}

impl Drop for RawAcc {
    fn drop(self) {
        let RawAcc {
            nodes: _,
            names: _,
            depth: _,
        } = self;
    }
}

impl Model for RawAcc {
    ghost use Rattle.omega_hoa_expression.specs.Depth.{counted};
    ghost use Rattle.omega_hoa_acceptance.specs.Raw.{RawAccTree, raw_acc_depth};
    ghost use Rattle.omega_hoa_acceptance.specs.private.layout.Raw.{IsRawAcc, atom_names, raw_acc_code};
    ghost use Rattle.omega_hoa_acceptance.specs.private.layout.Raw.{raw_acc_postfix, raw_acc_tree_of};

    ghost Value = { RawAccTree };

    ghost coded = { raw_acc_code };

    ghost use Rattle.omega_hoa_acceptance.specs.private.layout.RawFields.{raw_acc_given_back};

    ghost view = { λ a. raw_acc_tree_of a.nodes a.names };

    ghost invariant = { λ a. IsRawAcc a.nodes a.names a.depth };

    ghost inverse = { λ tree. record {
      nodes = raw_acc_postfix tree;
      names = atom_names tree;
      depth = counted (raw_acc_depth tree);
    } };

    ghost inverse_ok = { raw_acc_given_back };
}

impl RawAcc {
    ghost use Rattle.omega_hoa_acceptance.specs.Meaning.{IsMeant, IsUnmeant, acc_sets};
    ghost use Rattle.omega_hoa_acceptance.specs.private.layout.Raw.{IsRawAcc, atom_names, raw_acc_postfix};
    ghost use Rattle.omega_hoa_acceptance.specs.private.layout.Raw.{raw_acc_tree_of};

    /// Makes the formula `t` or `f`.
    pub fn constant(alloc: Global, value: bool) -> Result<RawAcc, Refusal>
        ensures ok { IfOk result (λ formula. formula ≡ constant_tree value) }
        ensures err { IfErr result IsMemory }
    {
        Ok(RawAcc {
            nodes: singleton(alloc, RawAccNode::Constant(value))?,
            names: Seq::new(alloc),
            depth: 1,
        })
    }

    /// Makes an atom: the identifier `name` and the number `set`, with `!` before it if `negated`.
    pub fn atom(alloc: Global, name: &[u8], negated: bool, set: u32) -> Result<RawAcc, Refusal>
        ensures ok { IfOk result (λ formula. formula ≡ atom_tree name.now negated set) }
        ensures err { IfErr result IsMemory }
    {
        let mut names = Vec::new(alloc);
        names.extend_from_slice(name)?;
        Ok(RawAcc {
            nodes: singleton(alloc, RawAccNode::Atom(name.len(), negated, set))?,
            names: Seq::from_vec(names),
            depth: 1,
        })
    }

    /// Puts the formula in parentheses. Refused with [AutomatonFault::TooDeep] if it would be over 256 deep.
    pub fn group(self) -> Result<RawAcc, Refusal>
        ensures ok { IfOk result (λ formula. formula ≡ group_tree self) }
        ensures shallow { IfOk result (λ formula. raw_acc_depth formula ≤ most_depth) }
        ensures err { IfErr result (IsDeeper (most_depth ≤ raw_acc_depth self)) }
    {
        let depth = deeper(self.depth)?;
        let RawAcc {
            nodes,
            names,
            depth: _,
        } = self;
        Ok(RawAcc {
            nodes: with_one(nodes, RawAccNode::Group)?,
            names,
            depth,
        })
    }

    /// Joins both formulas by `&`. Refused with [AutomatonFault::TooDeep] if the result would be over 256 deep.
    pub fn and(self, other: RawAcc) -> Result<RawAcc, Refusal>
        ensures ok { IfOk result (λ formula. formula ≡ conjunction self other) }
        ensures shallow { IfOk result (λ formula. raw_acc_depth formula ≤ most_depth) }
        ensures err { IfErr result
            (IsDeeper (most_depth ≤ max (raw_acc_depth self) (raw_acc_depth other))) }
    {
        self.combination(other, RawAccNode::And)
    }

    /// Joins both formulas by `|`. Refused with [AutomatonFault::TooDeep] if the result would be over 256 deep.
    pub fn or(self, other: RawAcc) -> Result<RawAcc, Refusal>
        ensures ok { IfOk result (λ formula. formula ≡ disjunction self other) }
        ensures shallow { IfOk result (λ formula. raw_acc_depth formula ≤ most_depth) }
        ensures err { IfErr result
            (IsDeeper (most_depth ≤ max (raw_acc_depth self) (raw_acc_depth other))) }
    {
        self.combination(other, RawAccNode::Or)
    }

    /// Joins both formulas by `operator`. Refused with [AutomatonFault::TooDeep] if the result would be over 256 deep.
    fn combination(self, other: RawAcc, operator: RawAccNode) -> Result<RawAcc, Refusal>
        requires { IsJoining operator }
        ensures ok { IfOk result (λ formula. formula ≡ joined_by operator self other) }
        ensures shallow { IfOk result (λ formula. raw_acc_depth formula ≤ most_depth) }
        ensures err { IfErr result
            (IsDeeper (most_depth ≤ max (raw_acc_depth self) (raw_acc_depth other))) }
    {
        let depth = deeper(self.depth.max(other.depth))?;
        let RawAcc {
            nodes,
            names,
            depth: _,
        } = self;
        let mut nodes = nodes.into_vec();
        let mut names = names.into_vec();
        append(
            &mut nodes,
            &mut names,
            other.nodes.as_slice(),
            other.names.as_slice(),
            operator,
        )?;
        Ok(RawAcc {
            nodes: Seq::from_vec(nodes),
            names: Seq::from_vec(names),
            depth,
        })
    }

    /// Returns its depth up to 256, and 257 if it is deeper.
    pub fn depth(&self) -> u32
        ensures { result ≡ counted (raw_acc_depth self.now) }
    {
        self.depth
    }

    /// Whether it is over 256 deep.
    pub fn is_too_deep(&self) -> bool
        ensures { IsTrue result ↔ (most_depth < raw_acc_depth self.now) }
    {
        self.depth > MOST_DEPTH
    }

    /// Whether its sets are all below `count`. Takes no memory.
    pub fn sets_below(&self, count: u32) -> bool
        ensures { result ≡ list_all (λ set. nat_lt set count) (acc_sets self.now) }
    {
        all_sets_below(self.nodes(), count)
    }

    /// Returns its meaning: the formula without parentheses.
    ///
    /// Refused with [AutomatonFault::AcceptanceAtom] if an atom is neither `Fin` nor `Inf` (HOA v1, acceptance), else
    /// with [AutomatonFault::TooDeep] if it is over 256 deep.
    pub fn formula(&self, alloc: Global) -> Result<Acc, Refusal>
        ensures ok { IfOk result (λ formula. IsMeant self.now formula) }
        ensures err { IfErr result (IsUnmeant self.now) }
    {
        let nodes = nodes_of(alloc, self)?;
        if self.depth > MOST_DEPTH {
            return Err(Refusal::Automaton(AutomatonFault::TooDeep));
        }
        let depth = depth_of(alloc, nodes.as_slice())?;
        Ok(Acc::of_nodes(nodes, depth))
    }

    /// Makes the formula of `nodes` in postfix order, with its atoms' names and its depth.
    pub(crate) fn of_nodes(nodes: Vec<RawAccNode>, names: Vec<u8>, depth: u32) -> RawAcc
        requires { IsRawAcc nodes.items names.items depth }
        ensures { result ≡ raw_acc_tree_of nodes.items names.items }
    {
        RawAcc {
            nodes: Seq::from_vec(nodes),
            names: Seq::from_vec(names),
            depth,
        }
    }

    /// Returns its nodes, parts before their operators.
    pub(crate) fn nodes(&self) -> &[RawAccNode]
        ensures { result.now ≡ raw_acc_postfix self.now }
    {
        self.nodes.as_slice()
    }

    /// Returns its atoms' names from left to right, joined.
    pub(crate) fn names(&self) -> &[u8]
        ensures { result.now ≡ atom_names self.now }
    {
        self.names.as_slice()
    }
}

/// Whether the sets of `nodes` are all below `count`.
fn all_sets_below(nodes: &[RawAccNode], count: u32) -> bool
    ensures { result ≡ list_all (λ node. set_below count node) nodes.now }
{
    nodes.iter().all(|node| is_set_below(*node, count))
}

/// Whether the set of `node` is below `count`, if it has one.
fn is_set_below(node: RawAccNode, count: u32) -> bool
    ensures { result ≡ set_below count node }
{
    match node {
        RawAccNode::Atom(_, _, set) => set < count,
        _ => true,
    }
}
