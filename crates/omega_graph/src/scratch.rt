ghost use Rattle.std.specs.Prelude.{◌≡◌, ◌<◌, All, IfOk, IsOkUnless};
ghost use Rattle.omega_graph.specs.private.Numbering.{IsNumberingOf};

use crate::numbering::{StateNumbering, number_all};
use omega_text::Refusal;
use std::alloc::{AllocError, Global};
use std::marker::Model;

/// Scratch space for searches in graphs with a given number of states, made once for many calls. Contracts see that
/// number and nothing else.
#[derive(Debug)]
pub struct Scratch {
    // By state, a number that means something only while a search runs.
    numbers: Vec<u32>,
}

impl Drop for Scratch {
    fn drop(self) {
        let Scratch { numbers: _ } = self;
    }
}

impl Model for Scratch {
    ghost use Rattle.std.specs.Prelude.{ℕ, length};

    ghost Value = { ℕ };

    ghost view = { λ r. length r.numbers.items };
}

impl Scratch {
    /// Allocates scratch space for graphs of `states` states. Linear in `states`.
    pub fn new(alloc: Global, states: u32) -> Result<Scratch, Refusal>
        ensures states { IfOk result (λ scratch. scratch ≡ states) }
        ensures memory { IsOkUnless result Refusal.Memory }
    {
        let numbers = vec![in alloc; 0; states as usize]?;
        Ok(Scratch { numbers })
    }

    /// Gives numbers to the states of `listed`, in the order in which they first come.
    pub(crate) fn number(
        &mut self,
        alloc: Global,
        listed: &[u32],
    ) -> Result<StateNumbering, AllocError>
        requires { All (λ state. state < self.old) listed.now }
        ensures scratch { self.new ≡ self.old }
        ensures numbering { IfOk result (IsNumberingOf listed.now) }
    {
        number_all(alloc, &mut self.numbers, listed)
    }
}
