ghost use Rattle.std.specs.Prelude.{◌≡◌, ◌∷◌, [], drop, IfErr, OnOk, MatchOption};
ghost use Rattle.omega_text.specs.Cases.{IsMemory};

use crate::depths::Depths;
use crate::signs::{Sign, Signs};
use omega_text::Refusal;
use std::alloc::Global;
use std::marker::Model;

/// A pending prefix, parenthesis or operator, whose part comes next. An operator keeps the depth of its left part.
#[derive(Clone, Copy)]
pub enum Pending {
    Open,
    Not,
    And(u32),
    Or(u32),
}

/// A stack of pending prefixes, parentheses and operators: a byte for each, and the depths of operators beside them. Up
/// to 24 of them, and 16 operators, take no memory.
pub struct PendingStack {
    signs: Signs,
    depths: Depths,
}

impl Drop for PendingStack {
    fn drop(self) {
        let PendingStack {
            signs: _,
            depths: _,
        } = self;
    }
}

impl Model for PendingStack {
    ghost use Rattle.std.specs.Prelude.{List};
    ghost use Rattle.omega_hoa_expression.specs.declared.pending.Pending.{Pending};
    ghost use Rattle.omega_hoa_expression.specs.private.Pending.{pending_in};

    ghost Value = { List Pending };

    ghost view = { λ s. pending_in s.signs s.depths };
}

impl PendingStack {
    /// Makes an empty stack.
    #[inline]
    pub fn new(alloc: Global) -> Self
        ensures { result ≡ [] }
    {
        PendingStack {
            signs: Signs::new(alloc),
            depths: Depths::new(alloc),
        }
    }

    /// Pushes `pending`.
    #[inline]
    pub fn push(&mut self, pending: Pending) -> Result<(), Refusal>
        ensures ok { OnOk result (self.new ≡ pending ∷ self.old) }
        ensures err { IfErr result IsMemory }
    {
        match pending {
            Pending::Open => self.signs.push(Sign::Open),
            Pending::Not => self.signs.push(Sign::Not),
            Pending::And(depth) => {
                self.depths.push(depth)?;
                self.signs.push(Sign::And)
            }
            Pending::Or(depth) => {
                self.depths.push(depth)?;
                self.signs.push(Sign::Or)
            }
        }
    }

    /// Returns the one on top without taking it, or none if the stack is empty.
    #[inline]
    pub fn top(&self) -> Option<Pending>
        ensures { MatchOption result (self.now ≡ [])
            (λ pending. self.now ≡ pending ∷ drop 1 self.now) }
    {
        let pending = match self.signs.top()? {
            Sign::Open => Pending::Open,
            Sign::Not => Pending::Not,
            Sign::And => Pending::And(self.depths.top()),
            Sign::Or => Pending::Or(self.depths.top()),
        };
        Some(pending)
    }

    /// Pops the one on top, or returns none if the stack is empty.
    #[inline]
    pub fn pop(&mut self) -> Option<Pending>
        ensures { MatchOption result ((self.old ≡ []) × (self.new ≡ []))
            (λ pending. self.old ≡ pending ∷ self.new) }
    {
        let pending = match self.signs.pop()? {
            Sign::Open => Pending::Open,
            Sign::Not => Pending::Not,
            Sign::And => Pending::And(self.depths.pop()),
            Sign::Or => Pending::Or(self.depths.pop()),
        };
        Some(pending)
    }
}
