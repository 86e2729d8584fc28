use omega_arrays::Arrays;

/// A game as arrays, as C has it: a pointer and a length for each.
#[repr(C)]
#[derive(Clone, Copy)]
pub struct Game<'a> {
    /// The priority of each node, at most `MOST_NUMBER`.
    pub priorities: &'a [u32],
    /// The player who owns each node, 0 or 1.
    pub owners: &'a [u8],
    /// For each node the index of its first successor, and at last the number of all successors.
    pub starts: &'a [u32],
    /// The places of the successors, those of the first node first.
    pub successors: &'a [u32],
}

impl<'a> Game<'a> {
    ghost use Rattle.std.specs.Prelude.{◌≡◌};
    ghost use Rattle.omega_arrays.specs.Arrays.{arrays};

    /// Returns the arrays.
    pub(crate) fn arrays(&self) -> Arrays<'a>
        ensures { result ≡ arrays self.now.priorities.now self.now.owners.now self.now.starts.now
            self.now.successors.now }
    {
        Arrays::new(self.priorities, self.owners, self.starts, self.successors)
    }
}
