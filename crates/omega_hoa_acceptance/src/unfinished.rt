ghost use Rattle.std.specs.Prelude.{List, IfErr, OnOk};
ghost use Rattle.omega_text.specs.Cases.{IsMemory};

use crate::raw::RawAccNode;
use omega_hoa_expression::{Pending, PendingStack, counted_deeper};
use omega_text::Refusal;
use std::alloc::Global;

/// An acceptance formula that is being read: the nodes and atoms' names so far, the pending operators and parentheses,
/// and the depth of the last part.
#[derive(Drop)]
pub(crate) struct UnfinishedAcc {
    pub(crate) nodes: Vec<RawAccNode>,
    pub(crate) names: Vec<u8>,
    pub(crate) pending: PendingStack,
    pub(crate) depth: u32,
}

impl UnfinishedAcc {
    ghost use Rattle.omega_hoa_acceptance.specs.private.layout.Building.{HasIn, WantsIn};
    ghost use Rattle.omega_hoa_expression.specs.Symbols.{conjunctive, disjunctive, unary};
    ghost use Rattle.omega_text.specs.Lexeme.{Lexeme};
    ghost use Rattle.omega_text.specs.declared.hoa.kind.HoaKind.{HoaKind};

    /// Makes an empty formula, before anything is read.
    pub(crate) fn new(alloc: Global) -> Self
        ensures { (whole : List (Lexeme HoaKind)) → WantsIn whole whole result }
    {
        UnfinishedAcc {
            nodes: Vec::new(alloc),
            names: Vec::new(alloc),
            pending: PendingStack::new(alloc),
            depth: 1,
        }
    }

    /// Joins the last part to the left part of `&` that is pending, if there is one.
    pub(crate) fn bind_tightly(&mut self) -> Result<(), Refusal>
        ensures ok { OnOk result ((whole : List (Lexeme HoaKind)) (left : List (Lexeme HoaKind)) →
            HasIn unary whole left self.old → HasIn conjunctive whole left self.new) }
        ensures err { IfErr result IsMemory }
    {
        if let Some(pending) = self.pending.top() {
            match pending {
                Pending::And(left) => {
                    self.pending.pop();
                    self.nodes.push(RawAccNode::And)?;
                    self.depth = counted_deeper(self.depth.max(left));
                }
                _ => return Ok(()),
            }
        }
        Ok(())
    }

    /// Joins the last part to the left part of `|` that is pending, if there is one.
    pub(crate) fn bind_loosely(&mut self) -> Result<(), Refusal>
        ensures ok { OnOk result ((whole : List (Lexeme HoaKind)) (left : List (Lexeme HoaKind)) →
            HasIn conjunctive whole left self.old → HasIn disjunctive whole left self.new) }
        ensures err { IfErr result IsMemory }
    {
        if let Some(pending) = self.pending.top() {
            match pending {
                Pending::Or(left) => {
                    self.pending.pop();
                    self.nodes.push(RawAccNode::Or)?;
                    self.depth = counted_deeper(self.depth.max(left));
                }
                _ => return Ok(()),
            }
        }
        Ok(())
    }
}
