//! Acceptance formulas, and how they are kept.

ghost use Rattle.std.specs.Prelude.{◌≡◌, ◌≤◌, max, IfErr, IfOk};
ghost use Rattle.omega_hoa_acceptance.specs.Acceptance.{acc_depth, conjunction, constant as constant_tree};
ghost use Rattle.omega_hoa_acceptance.specs.Acceptance.{disjunction, fin as fin_tree, inf as inf_tree};
ghost use Rattle.omega_hoa_expression.specs.Depth.{IsDeeper};
ghost use Rattle.omega_text.specs.Cases.{IsMemory};
ghost use Rattle.omega_hoa_expression.specs.Limits.{most_depth};

use omega_hoa_expression::{deeper, singleton, with_all, with_one};
use omega_text::{Refusal, Seq};
use std::alloc::Global;
use std::marker::Model;

/// A node of an acceptance formula. Its parts precede it. The truth value of an atom says whether `!` precedes its set.
#[derive(Clone, Copy, Debug, PartialEq, Eq)]
pub enum AccNode {
    Constant(bool),
    Inf(bool, u32),
    Fin(bool, u32),
    And,
    Or,
}

/// An acceptance formula without parentheses, at most 256 deep, in one allocation.
///
/// Contracts see its tree. Reading, comparing and dropping it need no recursion.
#[derive(Debug, PartialEq, Eq)]
pub struct Acc {
    pub(crate) nodes: Seq<AccNode>,
    depth: u32,
}

impl Drop for Acc {
    fn drop(self) {
        let Acc { nodes: _, depth: _ } = self;
    }
}

impl Model for Acc {
    ghost use Rattle.omega_hoa_acceptance.specs.Acceptance.{AccTree, acc_depth};
    ghost use Rattle.omega_hoa_acceptance.specs.private.layout.Acceptance.{IsAcc, acc_code, acc_postfix};
    ghost use Rattle.omega_hoa_acceptance.specs.private.layout.Acceptance.{acc_tree_of};

    ghost Value = { AccTree };

    ghost coded = { acc_code };

    ghost use Rattle.omega_hoa_acceptance.specs.private.layout.Fields.{acc_given_back};

    ghost view = { λ a. acc_tree_of a.nodes };

    ghost invariant = { λ a. IsAcc a.nodes a.depth };

    ghost inverse = { λ tree. record { nodes = acc_postfix tree; depth = acc_depth tree } };

    ghost inverse_ok = { acc_given_back };
}

impl Acc {
    ghost use Rattle.omega_hoa_acceptance.specs.Postfix.{acc_postfix};
    ghost use Rattle.omega_hoa_acceptance.specs.private.layout.Acceptance.{IsAcc, acc_tree_of};

    /// Makes the formula `t` or `f`.
    pub fn constant(alloc: Global, value: bool) -> Result<Acc, Refusal>
        ensures ok { IfOk result (λ formula. formula ≡ constant_tree value) }
        ensures err { IfErr result IsMemory }
    {
        Ok(Acc {
            nodes: singleton(alloc, AccNode::Constant(value))?,
            depth: 1,
        })
    }

    /// Makes `Inf` of the number `set`, with `!` before it if `negated`.
    pub fn inf(alloc: Global, negated: bool, set: u32) -> Result<Acc, Refusal>
        ensures ok { IfOk result (λ formula. formula ≡ inf_tree negated set) }
        ensures err { IfErr result IsMemory }
    {
        Ok(Acc {
            nodes: singleton(alloc, AccNode::Inf(negated, set))?,
            depth: 1,
        })
    }

    /// Makes `Fin` of the number `set`, with `!` before it if `negated`.
    pub fn fin(alloc: Global, negated: bool, set: u32) -> Result<Acc, Refusal>
        ensures ok { IfOk result (λ formula. formula ≡ fin_tree negated set) }
        ensures err { IfErr result IsMemory }
    {
        Ok(Acc {
            nodes: singleton(alloc, AccNode::Fin(negated, set))?,
            depth: 1,
        })
    }

    /// Joins both formulas by `&`. Refused with [AutomatonFault::TooDeep] if the result would be over 256 deep.
    pub fn and(self, other: Acc) -> Result<Acc, Refusal>
        ensures ok { IfOk result (λ formula. formula ≡ conjunction self other) }
        ensures err { IfErr result (IsDeeper (max (acc_depth self) (acc_depth other) ≡ most_depth)) }
    {
        let depth = deeper(self.depth.max(other.depth))?;
        let Acc { nodes, depth: _ } = self;
        let Acc {
            nodes: others,
            depth: _,
        } = other;
        let nodes = with_all(nodes, others)?;
        Ok(Acc {
            nodes: with_one(nodes, AccNode::And)?,
            depth,
        })
    }

    /// Joins both formulas by `|`. Refused with [AutomatonFault::TooDeep] if the result would be over 256 deep.
    pub fn or(self, other: Acc) -> Result<Acc, Refusal>
        ensures ok { IfOk result (λ formula. formula ≡ disjunction self other) }
        ensures err { IfErr result (IsDeeper (max (acc_depth self) (acc_depth other) ≡ most_depth)) }
    {
        let depth = deeper(self.depth.max(other.depth))?;
        let Acc { nodes, depth: _ } = self;
        let Acc {
            nodes: others,
            depth: _,
        } = other;
        let nodes = with_all(nodes, others)?;
        Ok(Acc {
            nodes: with_one(nodes, AccNode::Or)?,
            depth,
        })
    }

    /// States what each formula keeps: it is at most 256 deep. Does nothing: it hands on the type's invariant.
    pub fn keeps_limits(&self)
        ensures { acc_depth self.now ≤ most_depth }
    {
        // A field is read, since only then a proof knows the invariant.
        let _depth = self.depth;
    }

    /// Returns its depth, at most 256.
    pub fn depth(&self) -> u32
        ensures depth { result ≡ acc_depth self.now }
        ensures limit { acc_depth self.now ≤ most_depth }
    {
        self.depth
    }

    /// Makes the formula of `nodes` in postfix order and their `depth`.
    pub(crate) fn of_nodes(nodes: Vec<AccNode>, depth: u32) -> Acc
        requires { IsAcc nodes.items depth }
        ensures { result ≡ acc_tree_of nodes.items }
    {
        Acc {
            nodes: Seq::from_vec(nodes),
            depth,
        }
    }

    /// Returns its nodes, parts before their operators.
    pub fn nodes(&self) -> &[AccNode]
        ensures { result.now ≡ acc_postfix self.now }
    {
        self.nodes.as_slice()
    }
}
