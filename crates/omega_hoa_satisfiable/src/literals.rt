//! Labels that are conjunctions of literals: the propositions that are to hold, and those that are not.

ghost use Rattle.std.specs.Prelude.{◌≡◌, ◌==◌, ◌↔◌, ◌<◌, ◌≤◌, if◌then◌else◌, None, Some, IfSome, IsTrue};
ghost use Rattle.omega_hoa_label.specs.Label.{LabelTree, conjunction};
ghost use Rattle.omega_hoa_label.specs.Postfix.{postfix};
ghost use Rattle.omega_hoa_satisfiable.specs.Literals.{AreLiteralsOf};
ghost use Rattle.omega_hoa_satisfiable.specs.Satisfiable.{IsSatisfiable};
ghost use Rattle.omega_hoa_satisfiable.specs.private.ReadLiterals.{no_literals, with_last, with_last_held};
ghost use Rattle.omega_hoa_satisfiable.specs.private.ReadLiterals.{with_last_unheld, with_node, with_nodes};

use crate::tables::bits_in_both;
use omega_hoa_label::{Label, LabelNode, ROOM};

/// The literals of a label that is a conjunction of them, over the propositions below 64. Bit p of a word is that of
/// the proposition p.
#[derive(Clone, Copy, Debug, PartialEq, Eq)]
pub struct Literals {
    pub(crate) held: u64,
    pub(crate) unheld: u64,
}

impl Literals {
    /// Returns the literals of `label`, or none if it is no conjunction of literals or mentions a proposition from 64
    /// on. Linear in the label, and takes no memory.
    pub fn of(label: &Label) -> Option<Literals>
        ensures { IfSome result (AreLiteralsOf label.now) }
    {
        let mut room = ROOM;
        literals_in(label.nodes(&mut room))
    }

    /// Whether all of them can hold at once: no proposition is to hold and not to hold.
    pub fn can_hold(self) -> bool
        ensures { (tree : LabelTree) → AreLiteralsOf tree self
            → IsTrue result ↔ IsSatisfiable tree }
    {
        let clashes = bits_in_both(self.held, self.unheld);
        clashes == 0
    }

    /// Whether those of two labels can hold together.
    pub fn meets(self, other: Literals) -> bool
        ensures { (one : LabelTree) (another : LabelTree) → AreLiteralsOf one self
            → AreLiteralsOf another other → IsTrue result ↔ IsSatisfiable (conjunction one another) }
    {
        self.with(other).can_hold()
    }

    /// Returns them and those of another label.
    fn with(self, other: Literals) -> Literals
        ensures { (one : LabelTree) (another : LabelTree) → AreLiteralsOf one self
            → AreLiteralsOf another other → AreLiteralsOf (conjunction one another) result }
    {
        Literals {
            held: self.held | other.held,
            unheld: self.unheld | other.unheld,
        }
    }
}

/// Returns the literals of the label of `nodes` in postfix order, as [`Literals::of`] does.
fn literals_in(nodes: &[LabelNode]) -> Option<Literals>
    ensures { IfSome result (λ literals. (tree : LabelTree) → nodes.now ≡ postfix tree
        → AreLiteralsOf tree literals) }
{
    let read = read_literals(nodes)?;
    Some(Literals {
        held: read.held | read.last,
        unheld: read.unheld,
    })
}

/// Reads the literals of `nodes`. Returns none if one of them belongs to no conjunction of literals.
fn read_literals(nodes: &[LabelNode]) -> Option<ReadLiterals>
    ensures { result ≡ with_nodes (Some no_literals) nodes.now }
{
    let mut read = ReadLiterals::new();
    for node in nodes {
        read = read.with_node(*node)?;
    }
    Some(read)
}

/// The literals of nodes that were read. The bit of the last proposition stands apart, since `!` may follow.
#[derive(Clone, Copy)]
pub(crate) struct ReadLiterals {
    held: u64,
    unheld: u64,
    last: u64,
}

impl ReadLiterals {
    /// Makes those of no nodes.
    fn new() -> ReadLiterals
        ensures { result ≡ no_literals }
    {
        ReadLiterals {
            held: 0,
            unheld: 0,
            last: 0,
        }
    }

    /// Returns them with one node more, or none if it belongs to no conjunction of literals.
    fn with_node(self, node: LabelNode) -> Option<ReadLiterals>
        ensures { result ≡ with_node self node }
    {
        match node {
            LabelNode::Proposition(number) => self.with_proposition(number),
            LabelNode::Not => self.with_not(),
            LabelNode::And | LabelNode::Constant(true) => Some(self.with_last_held()),
            LabelNode::Constant(false) | LabelNode::Or | LabelNode::Alias(_) | LabelNode::Group =>
                None,
        }
    }

    /// Returns them with a proposition, or none if it is from 64 on.
    fn with_proposition(self, number: u32) -> Option<ReadLiterals>
        ensures some { number < 64 → result ≡ Some (with_last self number) }
        ensures none { 64 ≤ number → result ≡ None }
    {
        if number >= 64 {
            return None;
        }
        Some(ReadLiterals {
            held: self.held | self.last,
            unheld: self.unheld,
            last: 1 << number,
        })
    }

    /// Returns them with the last proposition negated, or none if the last node is no proposition.
    fn with_not(self) -> Option<ReadLiterals>
        ensures { result ≡ if self.last == 0 then None else Some (with_last_unheld self) }
    {
        if self.last == 0 {
            return None;
        }
        Some(ReadLiterals {
            held: self.held,
            unheld: self.unheld | self.last,
            last: 0,
        })
    }

    /// Returns them with the last proposition as one that is to hold.
    fn with_last_held(self) -> ReadLiterals
        ensures { result ≡ with_last_held self }
    {
        ReadLiterals {
            held: self.held | self.last,
            unheld: self.unheld,
            last: 0,
        }
    }
}
