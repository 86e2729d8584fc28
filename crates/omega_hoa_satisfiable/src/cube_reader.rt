//! Cubes, which are conjunctions of literals, read from the last node to the first. So those of a disjunction are read
//! one after the other without a stack.

ghost use Rattle.std.specs.Prelude.{◌≡◌, ◌+◌, ◌-◌, ◌<◌, ◌||◌, ◌==◌, true, false, None, Some, if◌then◌else◌};
ghost use Rattle.std.specs.Prelude.{nat_le, nat_lt};
ghost use Rattle.omega_hoa_satisfiable.specs.declared.cube_reader.ReadNode.TheVariants.{End};
ghost use Rattle.omega_hoa_satisfiable.specs.private.ReadCubes.{before_node, most_wanted, no_cube, wanting};
ghost use Rattle.omega_hoa_satisfiable.specs.private.ReadCubes.{with_literal, with_part};

use crate::literals::Literals;
use omega_hoa_label::LabelNode;

/// The most parts of a cube that wait to be read.
const MOST_WANTED: u32 = 65_536;

/// The end of a cube that was read: its literals over the propositions below 64.
#[derive(Clone, Copy)]
pub(crate) struct CubeReader {
    literals: Literals,
    /// How many parts of the cube are left to be read, 0 before its last node is.
    wanted: u32,
    /// Whether the part that is read next is negated.
    negated: bool,
}

/// What is read with a node more.
#[derive(Clone, Copy)]
pub(crate) enum ReadNode {
    /// The end of a cube, or none of it yet.
    End(CubeReader),
    /// A cube, whole.
    Cube(Literals),
}

impl CubeReader {
    /// Makes the reader of a cube of which no node was read.
    pub(crate) fn new() -> CubeReader
        ensures { result ≡ no_cube }
    {
        CubeReader {
            literals: Literals { held: 0, unheld: 0 },
            wanted: 0,
            negated: false,
        }
    }

    /// Returns what is read with the node before, or none if it belongs to no cube and joins no two of them.
    pub(crate) fn before(self, node: LabelNode) -> Option<ReadNode>
        ensures { result ≡ before_node self node }
    {
        match node {
            LabelNode::Proposition(number) => self.before_proposition(number),
            LabelNode::Constant(true) => self.before_true(),
            LabelNode::And => self.before_and(),
            LabelNode::Not => self.before_not(),
            LabelNode::Or => self.before_or(),
            LabelNode::Constant(false) | LabelNode::Alias(_) | LabelNode::Group => None,
        }
    }

    /// Returns what is read with the proposition `number` before, or none if it is from 64 on.
    fn before_proposition(self, number: u32) -> Option<ReadNode>
        ensures { result ≡ if nat_lt number 64
            then Some (with_part self.wanted (with_literal self.literals self.negated number)) else None }
    {
        if number < 64 {
            Some(self.with_part(self.with_literal(number)))
        } else {
            None
        }
    }

    /// Returns what is read with `t` before, or none if it is negated.
    fn before_true(self) -> Option<ReadNode>
        ensures { result ≡ if self.negated then None else Some (with_part self.wanted self.literals) }
    {
        if self.negated {
            None
        } else {
            Some(self.with_part(self.literals))
        }
    }

    /// Returns what is read with `&` before, or none if it is negated, or if over `MOST_WANTED` parts would be left.
    fn before_and(self) -> Option<ReadNode>
        ensures { result ≡ if self.negated || nat_le most_wanted self.wanted then None
            else Some (wanting self.literals (self.wanted - 1 + 2) false) }
    {
        if self.negated || self.wanted >= MOST_WANTED {
            None
        } else {
            Some(self.wanting(self.wanted.saturating_sub(1) + 2, false))
        }
    }

    /// Returns what is read with `!` before, or none if it is negated itself.
    fn before_not(self) -> Option<ReadNode>
        ensures { result ≡ if self.negated then None
            else Some (wanting self.literals (self.wanted - 1 + 1) true) }
    {
        if self.negated {
            None
        } else {
            Some(self.wanting(self.wanted.saturating_sub(1) + 1, true))
        }
    }

    /// Returns what is read with `|` before, or none if a node of a cube was read.
    fn before_or(self) -> Option<ReadNode>
        ensures { result ≡ if self.wanted == 0 then Some (End self) else None }
    {
        if self.wanted == 0 {
            Some(ReadNode::End(self))
        } else {
            None
        }
    }

    /// Returns the end of a cube with the same literals, of which `wanted` parts are left.
    fn wanting(self, wanted: u32, negated: bool) -> ReadNode
        ensures { result ≡ wanting self.literals wanted negated }
    {
        ReadNode::End(CubeReader {
            literals: self.literals,
            wanted,
            negated,
        })
    }

    /// Returns what is read with a part more, after which the cube has these literals.
    fn with_part(self, literals: Literals) -> ReadNode
        ensures { result ≡ with_part self.wanted literals }
    {
        if self.wanted <= 1 {
            return ReadNode::Cube(literals);
        }
        ReadNode::End(CubeReader {
            literals,
            wanted: self.wanted - 1,
            negated: false,
        })
    }

    /// Returns the literals with that of the proposition `number`.
    fn with_literal(self, number: u32) -> Literals
        requires { number < 64 }
        ensures { result ≡ with_literal self.literals self.negated number }
    {
        let literals = self.literals;
        if self.negated {
            Literals {
                held: literals.held,
                unheld: literals.unheld | 1 << number,
            }
        } else {
            Literals {
                held: literals.held | 1 << number,
                unheld: literals.unheld,
            }
        }
    }
}
