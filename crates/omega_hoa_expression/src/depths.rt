ghost use Rattle.std.specs.Prelude.{◌≡◌, ◌∷◌, [], IfErr, OnOk};
ghost use Rattle.omega_text.specs.Cases.{IsMemory};
ghost use Rattle.omega_hoa_expression.specs.Depths.{depths_below, top_depth};

use omega_text::Refusal;
use smallvec::SmallVec;
use std::alloc::Global;
use std::marker::Model;

/// A stack of depths. Up to 16 take no memory.
pub struct Depths {
    items: SmallVec<u32, 16>,
}

impl Drop for Depths {
    fn drop(self) {
        let Depths { items: _ } = self;
    }
}

impl Model for Depths {
    ghost use Rattle.std.specs.Prelude.{List, reverse, ℕ};

    ghost Value = { List ℕ };

    ghost view = { λ d. reverse d.items.items };
}

impl Depths {
    /// Makes an empty stack.
    #[inline]
    pub fn new(alloc: Global) -> Self
        ensures { result ≡ [] }
    {
        Depths {
            items: SmallVec::new(alloc),
        }
    }

    /// Pushes `depth`.
    #[inline]
    pub fn push(&mut self, depth: u32) -> Result<(), Refusal>
        ensures ok { OnOk result (self.new ≡ depth ∷ self.old) }
        ensures err { IfErr result IsMemory }
    {
        self.items.push(depth)?;
        Ok(())
    }

    /// Returns the depth on top without taking it, or 0 if the stack is empty.
    #[inline]
    pub fn top(&self) -> u32
        ensures { result ≡ top_depth self.now }
    {
        self.items.as_slice().last().copied().unwrap_or(0)
    }

    /// Pops the depth on top, or returns 0 if the stack is empty.
    #[inline]
    pub fn pop(&mut self) -> u32
        ensures depth { result ≡ top_depth self.old }
        ensures rest { self.new ≡ depths_below self.old }
    {
        self.items.pop().unwrap_or(0)
    }
}
