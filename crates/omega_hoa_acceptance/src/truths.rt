ghost use Rattle.std.specs.Prelude.{◌≡◌, ◌∷◌, [], IfErr, OnOk};
ghost use Rattle.omega_text.specs.Cases.{IsMemory};
ghost use Rattle.omega_hoa_acceptance.specs.private.layout.Judged.{top_truth, truths_below};

use omega_text::Refusal;
use smallvec::SmallVec;
use std::alloc::Global;
use std::marker::Model;

/// A stack of truth values. Up to 64 take no memory.
#[derive(Drop)]
pub(crate) struct Truths {
    items: SmallVec<bool, 64>,
}

impl Model for Truths {
    ghost use Rattle.std.specs.Prelude.{Bool, List, reverse};

    ghost Value = { List Bool };

    ghost view = { λ t. reverse t.items.items };
}

impl Truths {
    /// Makes an empty stack.
    pub(crate) fn new(alloc: Global) -> Self
        ensures { result ≡ [] }
    {
        Truths {
            items: SmallVec::new(alloc),
        }
    }

    /// Pushes `truth`.
    pub(crate) fn push(&mut self, truth: bool) -> Result<(), Refusal>
        ensures ok { OnOk result (self.new ≡ truth ∷ self.old) }
        ensures err { IfErr result IsMemory }
    {
        self.items.push(truth)?;
        Ok(())
    }

    /// Pops the truth value on top, or returns false if the stack is empty.
    pub(crate) fn pop(&mut self) -> bool
        ensures truth { result ≡ top_truth self.old }
        ensures rest { self.new ≡ truths_below self.old }
    {
        self.items.pop().unwrap_or(false)
    }
}
