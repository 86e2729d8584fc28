ghost use Rattle.std.specs.Prelude.{◌≡◌, ◌<◌, ◌∷◌, [], IsOkUnless, OnOk, length};

use omega_text::Refusal;
use std::alloc::Global;
use std::marker::Model;

/// A stack of places of nodes.
#[derive(Drop)]
pub(crate) struct Places {
    items: Vec<u32>,
}

impl Model for Places {
    ghost use Rattle.std.specs.Prelude.{List, reverse, ℕ};

    ghost Value = { List ℕ };

    ghost view = { λ p. reverse p.items.items };
}

impl Places {
    /// Makes an empty stack.
    pub(crate) fn new(alloc: Global) -> Self
        ensures { result ≡ [] }
    {
        Places {
            items: Vec::new(alloc),
        }
    }

    /// Pushes `place`.
    pub(crate) fn push(&mut self, place: u32) -> Result<(), Refusal>
        ensures ok { OnOk result (self.new ≡ place ∷ self.old) }
        ensures memory { IsOkUnless result Refusal.Memory }
    {
        self.items.push(place)?;
        Ok(())
    }

    /// Pops the place on top.
    pub(crate) fn pop(&mut self) -> u32
        requires { 0 < length self.old }
        ensures { self.old ≡ result ∷ self.new }
    {
        match self.items.pop() {
            Some(place) => place,
            None => unreachable!(),
        }
    }
}
