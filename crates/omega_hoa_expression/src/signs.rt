ghost use Rattle.std.specs.Prelude.{◌≡◌, ◌∷◌, [], drop, IfErr, OnOk, MatchOption};
ghost use Rattle.omega_text.specs.Cases.{IsMemory};

use omega_text::Refusal;
use smallvec::SmallVec;
use std::alloc::Global;
use std::marker::Model;

/// A pending prefix operator or parenthesis, without its operand.
#[derive(Clone, Copy, Default)]
pub(crate) enum Sign {
    #[default]
    Open,
    Not,
    And,
    Or,
}

/// A stack of signs pending for a part, the next on top. Up to 64 take no memory.
#[derive(Drop)]
pub(crate) struct Signs {
    items: SmallVec<Sign, 64>,
}

impl Model for Signs {
    ghost use Rattle.std.specs.Prelude.{List, reverse};
    ghost use Rattle.omega_hoa_expression.specs.declared.signs.Sign.{Sign};

    ghost Value = { List Sign };

    ghost view = { λ s. reverse s.items.items };
}

impl Signs {
    /// Makes an empty stack.
    pub(crate) fn new(alloc: Global) -> Self
        ensures { result ≡ [] }
    {
        Signs {
            items: SmallVec::new(alloc),
        }
    }

    /// Pushes `sign`.
    pub(crate) fn push(&mut self, sign: Sign) -> Result<(), Refusal>
        ensures ok { OnOk result (self.new ≡ sign ∷ self.old) }
        ensures err { IfErr result IsMemory }
    {
        self.items.push(sign)?;
        Ok(())
    }

    /// Returns the sign on top without taking it, or none if the stack is empty.
    pub(crate) fn top(&self) -> Option<Sign>
        ensures { MatchOption result (self.now ≡ []) (λ sign. self.now ≡ sign ∷ drop 1 self.now) }
    {
        self.items.as_slice().last().copied()
    }

    /// Pops the sign on top, or returns none if the stack is empty.
    pub(crate) fn pop(&mut self) -> Option<Sign>
        ensures { MatchOption result ((self.old ≡ []) × (self.new ≡ []))
            (λ sign. self.old ≡ sign ∷ self.new) }
    {
        self.items.pop()
    }
}
