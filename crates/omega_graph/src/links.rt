ghost use Rattle.std.specs.Prelude.{◌≡◌, ◌<◌, length, slice_index, All, IfOk};
ghost use Rattle.omega_graph.specs.private.Links.{last_before};

use std::alloc::{AllocError, Global};
use std::marker::Model;

/// For each state below a count, the indices at which a list has it, linked from the last to the first.
#[derive(Drop)]
pub(crate) struct Links<'a> {
    states: &'a [u32],
    // By state one more than its last index, and by index one more than the one before it of the same state: 0 without
    // such an index.
    last: Vec<u32>,
    before: Vec<u32>,
}

impl<'a> Model for Links<'a> {
    ghost use Rattle.std.specs.Prelude.{length};
    ghost use Rattle.omega_graph.specs.private.Links.{Linked, AreLinks};

    ghost Value = { Linked };

    ghost view = { λ l. record { count = length l.last.items; states = l.states.now } };

    ghost invariant = { λ l. AreLinks l.states.now (length l.last.items) l.last.items l.before.items };
}

impl<'a> Links<'a> {
    /// Links the indices of `states`, which has at most 2^32 - 1 items. Linear in `states` and `count`.
    pub(crate) fn new(
        alloc: Global,
        count: usize,
        states: &'a [u32],
    ) -> Result<Links<'a>, AllocError>
        requires { All (λ state. state < count) states.now }
        ensures count { IfOk result (λ links. links.count ≡ count) }
        ensures states { IfOk result (λ links. links.states ≡ states.now) }
    {
        if states.len() > u32::MAX as usize {
            return Err(AllocError);
        }
        let mut last = vec![in alloc; 0u32; count]?;
        let mut before = Vec::with_capacity(alloc, states.len())?;
        for (index, state) in states.iter().enumerate() {
            before.push(last[*state as usize])?;
            last[*state as usize] = index as u32 + 1;
        }
        Ok(Links {
            states,
            last,
            before,
        })
    }

    /// Returns one more than the last index of `state`, or 0 without an index.
    pub(crate) fn last(&self, state: usize) -> u32
        requires { state < self.now.count }
        ensures { result ≡ last_before self.now.states state (length self.now.states) }
    {
        self.last[state]
    }

    /// Returns one more than the previous index with the state at `index`, or 0 without such an index.
    pub(crate) fn before(&self, index: usize) -> u32
        requires { index < length self.now.states }
        ensures { result ≡ last_before self.now.states (slice_index self.now.states index) index }
    {
        self.before[index]
    }
}
