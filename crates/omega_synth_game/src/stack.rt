ghost use Rattle.std.specs.Prelude.{◌≡◌, [], ◌∷◌, IsOkUnless, OnOk};
ghost use Rattle.omega_hoa_satisfiable.specs.private.Words.{top_word, words_below};

use omega_text::Refusal;
use std::alloc::Global;
use std::marker::Model;

/// A stack of words. It keeps its memory when it is emptied.
#[derive(Drop)]
pub(crate) struct Stack {
    words: Vec<u64>,
}

impl Model for Stack {
    ghost use Rattle.std.specs.Prelude.{List, ℕ, reverse};

    ghost Value = { List ℕ };

    ghost view = { λ s. reverse s.words.items };
}

impl Stack {
    /// Makes an empty stack.
    pub(crate) fn new(alloc: Global) -> Self
        ensures { result ≡ [] }
    {
        Stack {
            words: Vec::new(alloc),
        }
    }

    /// Empties the stack.
    pub(crate) fn clear(&mut self)
        ensures { self.new ≡ [] }
    {
        self.words.clear();
    }

    /// Pushes `word`.
    pub(crate) fn push(&mut self, word: u64) -> Result<(), Refusal>
        ensures pushed { OnOk result (self.new ≡ word ∷ self.old) }
        ensures memory { IsOkUnless result Refusal.Memory }
    {
        self.words.push(word)?;
        Ok(())
    }

    /// Pops the word on top, or returns 0 if the stack is empty.
    pub(crate) fn pop(&mut self) -> u64
        ensures word { result ≡ top_word self.old }
        ensures rest { self.new ≡ words_below self.old }
    {
        match self.words.pop() {
            Some(word) => word,
            None => 0,
        }
    }
}
