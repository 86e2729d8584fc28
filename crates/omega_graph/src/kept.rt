ghost use Rattle.std.specs.Prelude.{◌≡◌, [], ◌∷◌, ◌++◌, IfOk, OnOk};

use std::alloc::{AllocError, Global};

/// The edges that stay in a component: their numbers, the states that they leave and enter, and the numbers of their
/// components.
#[derive(Drop)]
pub(crate) struct Kept {
    pub edges: Vec<u32>,
    pub leaves: Vec<u32>,
    pub enters: Vec<u32>,
    pub keys: Vec<u32>,
}

impl Kept {
    /// Returns an empty list with capacity for `count` edges.
    pub(crate) fn with_capacity(alloc: Global, count: usize) -> Result<Kept, AllocError>
        ensures edges { IfOk result (λ kept. kept.edges.items ≡ []) }
        ensures leaves { IfOk result (λ kept. kept.leaves.items ≡ []) }
        ensures enters { IfOk result (λ kept. kept.enters.items ≡ []) }
        ensures keys { IfOk result (λ kept. kept.keys.items ≡ []) }
    {
        Ok(Kept {
            edges: Vec::with_capacity(alloc, count)?,
            leaves: Vec::with_capacity(alloc, count)?,
            enters: Vec::with_capacity(alloc, count)?,
            keys: Vec::with_capacity(alloc, count)?,
        })
    }

    /// Appends `edge`, which goes from `leave` to `enter` in the component `key`.
    pub(crate) fn keep(
        &mut self,
        edge: u32,
        leave: u32,
        enter: u32,
        key: u32,
    ) -> Result<(), AllocError>
        ensures edges { OnOk result (self.new.edges.items ≡ self.old.edges.items ++ edge ∷ []) }
        ensures leaves { OnOk result (self.new.leaves.items ≡ self.old.leaves.items ++ leave ∷ []) }
        ensures enters { OnOk result (self.new.enters.items ≡ self.old.enters.items ++ enter ∷ []) }
        ensures keys { OnOk result (self.new.keys.items ≡ self.old.keys.items ++ key ∷ []) }
    {
        self.edges.push(edge)?;
        self.leaves.push(leave)?;
        self.enters.push(enter)?;
        self.keys.push(key)?;
        Ok(())
    }
}
