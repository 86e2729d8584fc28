use std::marker::Model;

/// A game as arrays. Its nodes are the places from 0 on, one for each priority; the successors of the node at a place
/// are those from its start up to the start after it.
#[repr(C)]
#[derive(Drop)]
pub struct Arrays<'a> {
    /// The priority of each node, at most `MOST_NUMBER`.
    priorities: &'a [u32],
    /// The player who owns each node, 0 or 1.
    owners: &'a [u8],
    /// For each node the index of its first successor, and at last the number of all successors.
    starts: &'a [u32],
    /// The places of the successors, those of the first node first.
    successors: &'a [u32],
}

impl<'a> Model for Arrays<'a> {
    ghost use Rattle.omega_arrays.specs.Arrays.{GameArrays, arrays};

    ghost Value = { GameArrays };

    ghost view = { λ a. arrays a.priorities.now a.owners.now a.starts.now a.successors.now };
}

impl<'a> Arrays<'a> {
    ghost use Rattle.std.specs.Prelude.{◌≡◌};
    ghost use Rattle.omega_arrays.specs.Arrays.{arrays};

    /// Returns these arrays, whatever they hold.
    pub fn new(
        priorities: &'a [u32],
        owners: &'a [u8],
        starts: &'a [u32],
        successors: &'a [u32],
    ) -> Arrays<'a>
        ensures { result
            ≡ arrays priorities.entry.now owners.entry.now starts.entry.now successors.entry.now }
    {
        Arrays {
            priorities,
            owners,
            starts,
            successors,
        }
    }

    /// Returns the priorities.
    pub(crate) fn priorities(&self) -> &[u32]
        ensures { result.now ≡ self.now.priorities }
    {
        self.priorities
    }

    /// Returns the numbers of the owners.
    pub(crate) fn owners(&self) -> &[u8]
        ensures { result.now ≡ self.now.owners }
    {
        self.owners
    }

    /// Returns the index of the first successor of each node, and at last the number of all successors.
    pub(crate) fn starts(&self) -> &[u32]
        ensures { result.now ≡ self.now.starts }
    {
        self.starts
    }

    /// Returns the successors of all nodes.
    pub(crate) fn successors(&self) -> &[u32]
        ensures { result.now ≡ self.now.successors }
    {
        self.successors
    }
}
