ghost use Rattle.std.specs.Prelude.{◌≡◌, ◌∷◌, ◌++◌, [], if◌then◌else◌, IfErr, List, OnOk, ◌+◌, max, min};
ghost use Rattle.omega_text.specs.Cases.{IsMemory};
ghost use Rattle.omega_hoa_expression.specs.Limits.{past_depth};

use omega_hoa_expression::{Pending, PendingStack, counted_deeper};
use omega_hoa_label::{LabelNode, ReadNodes};
use omega_text::Refusal;
use std::alloc::Global;

/// A label that is being read: the nodes and alias names so far, the pending operators and parentheses, and the depth
/// of the last part. Up to 21 nodes take no memory.
#[derive(Drop)]
pub(crate) struct Unfinished {
    pub(crate) nodes: ReadNodes,
    pub(crate) names: Vec<u8>,
    pub(crate) pending: PendingStack,
    pub(crate) depth: u32,
}

impl Unfinished {
    ghost use Rattle.omega_hoa_label.specs.declared.label.LabelNode.TheVariants.{And};
    ghost use Rattle.omega_hoa_expression.specs.declared.pending.Pending.TheVariants.{And as WaitingAnd, Not};
    ghost use Rattle.omega_hoa_label_text.specs.private.Building.{HasIn, WantsIn, literal, literal_depth};
    ghost use Rattle.omega_hoa_expression.specs.Symbols.{conjunctive, disjunctive, unary};
    ghost use Rattle.omega_text.specs.Lexeme.{Lexeme};
    ghost use Rattle.omega_text.specs.declared.hoa.kind.HoaKind.{HoaKind};

    /// Makes an empty label, before anything is read.
    pub(crate) fn new(alloc: Global) -> Self
        ensures { (whole : List (Lexeme HoaKind)) → WantsIn whole whole result }
    {
        Unfinished {
            nodes: ReadNodes::new(alloc),
            names: Vec::new(alloc),
            pending: PendingStack::new(alloc),
            depth: 1,
        }
    }

    /// Applies each pending `!` to the last part, and joins it to the left part of `&` that is pending, if there is
    /// one.
    #[inline(always)]
    pub(crate) fn bind_tightly(&mut self) -> Result<(), Refusal>
        ensures ok { OnOk result ((whole : List (Lexeme HoaKind)) (left : List (Lexeme HoaKind)) →
            HasIn unary whole left self.old → HasIn conjunctive whole left self.new) }
        ensures err { IfErr result IsMemory }
    {
        while let Some(pending) = self.pending.top() {
            match pending {
                Pending::Not => {
                    self.pending.pop();
                    self.nodes.push(LabelNode::Not)?;
                    self.depth = counted_deeper(self.depth);
                }
                Pending::And(left) => {
                    self.pending.pop();
                    self.conjoin(left)?;
                    return Ok(());
                }
                _ => return Ok(()),
            }
        }
        Ok(())
    }

    /// Joins the proposition `number`, with `!` before it if `negated`, by `&` to the last part.
    #[inline(always)]
    pub(crate) fn conjoin_literal(&mut self, negated: bool, number: u32) -> Result<(), Refusal>
        ensures nodes { OnOk result (self.new.nodes ≡
            (self.old.nodes ++ literal negated number) ++ And ∷ []) }
        ensures depth { OnOk result
            (self.new.depth ≡ min (max (literal_depth negated) self.old.depth + 1) past_depth) }
        ensures names { OnOk result (self.new.names.items ≡ self.old.names.items) }
        ensures pending { OnOk result (self.new.pending ≡ self.old.pending) }
        ensures err { IfErr result IsMemory }
    {
        let left = self.depth;
        self.nodes.push(LabelNode::Proposition(number))?;
        self.depth = 1;
        if negated {
            self.nodes.push(LabelNode::Not)?;
            self.depth = 2;
        }
        self.conjoin(left)
    }

    /// Makes the last part a pending left part of `&`, and if `negated` a `!` after it.
    pub(crate) fn wait(&mut self, negated: bool) -> Result<(), Refusal>
        ensures pending { OnOk result
            (self.new.pending ≡ (if negated then Not ∷ WaitingAnd self.old.depth ∷ self.old.pending
            else WaitingAnd self.old.depth ∷ self.old.pending)) }
        ensures nodes { OnOk result (self.new.nodes ≡ self.old.nodes) }
        ensures names { OnOk result (self.new.names.items ≡ self.old.names.items) }
        ensures err { IfErr result IsMemory }
    {
        self.pending.push(Pending::And(self.depth))?;
        if negated {
            self.pending.push(Pending::Not)?;
        }
        Ok(())
    }

    /// Joins the last part by `&` to a left part of depth `left`.
    #[inline(always)]
    fn conjoin(&mut self, left: u32) -> Result<(), Refusal>
        ensures nodes { OnOk result (self.new.nodes ≡ self.old.nodes ++ And ∷ []) }
        ensures depth { OnOk result (self.new.depth ≡ min (max self.old.depth left + 1) past_depth) }
        ensures names { OnOk result (self.new.names.items ≡ self.old.names.items) }
        ensures pending { OnOk result (self.new.pending ≡ self.old.pending) }
        ensures err { IfErr result IsMemory }
    {
        self.nodes.push(LabelNode::And)?;
        self.depth = counted_deeper(self.depth.max(left));
        Ok(())
    }

    /// Joins the last part to the left part of `|` that is pending, if there is one.
    #[inline(always)]
    pub(crate) fn bind_loosely(&mut self) -> Result<(), Refusal>
        ensures ok { OnOk result ((whole : List (Lexeme HoaKind)) (left : List (Lexeme HoaKind)) →
            HasIn conjunctive whole left self.old → HasIn disjunctive whole left self.new) }
        ensures err { IfErr result IsMemory }
    {
        if let Some(pending) = self.pending.top() {
            match pending {
                Pending::Or(left) => {
                    self.pending.pop();
                    self.nodes.push(LabelNode::Or)?;
                    self.depth = counted_deeper(self.depth.max(left));
                }
                _ => return Ok(()),
            }
        }
        Ok(())
    }
}
