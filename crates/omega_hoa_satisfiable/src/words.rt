ghost use Rattle.std.specs.Prelude.{◌≡◌, ◌<◌, ◌≤◌, [], ◌∷◌, length};
ghost use Rattle.omega_hoa_satisfiable.specs.private.Words.{top_word, words_below};

use std::marker::Model;

/// A stack with room for `ROOM` words, which takes no memory.
#[derive(Drop)]
pub(crate) struct Words<const ROOM: usize> {
    items: [u64; ROOM],
    first: usize,
}

impl<const ROOM: usize> Model for Words<ROOM> {
    ghost use Rattle.std.specs.Prelude.{List, drop, ◌≤◌, ℕ};

    ghost Value = { List ℕ };

    ghost view = { λ w. drop w.first w.items };

    ghost invariant = { λ w. w.first ≤ ROOM };
}

impl<const ROOM: usize> Words<ROOM> {
    /// Makes an empty stack.
    pub(crate) fn new() -> Self
        ensures { result ≡ [] }
    {
        Words {
            items: [0; ROOM],
            first: ROOM,
        }
    }

    /// Pushes `word`.
    pub(crate) fn push(&mut self, word: u64)
        requires { length self.old < ROOM }
        ensures { self.new ≡ word ∷ self.old }
    {
        self.first -= 1;
        self.items[self.first] = word;
    }

    /// Pops the word on top, or returns 0 if the stack is empty.
    pub(crate) fn pop(&mut self) -> u64
        ensures word { result ≡ top_word self.old }
        ensures rest { self.new ≡ words_below self.old }
    {
        if self.first < ROOM {
            let word = self.items[self.first];
            self.first += 1;
            word
        } else {
            0
        }
    }
}
