ghost use Rattle.std.specs.Prelude.{◌≡◌, ◌↔◌, ◌<◌, IfNone, IfSome, IsTrue};
ghost use Rattle.omega_ltl_shapes.specs.Covers.{has_literal};
ghost use Rattle.omega_ltl_shapes.specs.Terms.{AreContradictory, HasLiterals, IsCubeOfBoth, IsCubeWith};
ghost use Rattle.omega_ltl_shapes.specs.Terms.{IsLiteralCube, no_literals};

use crate::bits::{bits_of_both, has_bit, has_bits_of, have_common_bit, with_bit};

/// A conjunction of literals over propositions 0 to 63: a bit of one of two words for each literal.
#[derive(Clone, Copy, Debug, PartialEq, Eq)]
pub struct Cube {
    /// The propositions that hold.
    pub positive: u64,
    /// The propositions that do not hold.
    pub negative: u64,
}

impl Cube {
    /// Returns the cube without literals, which is true at each letter.
    pub fn empty() -> Cube
        ensures { result ≡ no_literals }
    {
        Cube {
            positive: 0,
            negative: 0,
        }
    }

    /// Returns the cube of one literal.
    pub fn of_literal(name: u32, negated: bool) -> Cube
        requires { name < 64 }
        ensures { IsLiteralCube name negated result }
    {
        Cube::empty().with(name, negated)
    }

    /// Returns the cube with one literal more.
    pub fn with(self, name: u32, negated: bool) -> Cube
        requires { name < 64 }
        ensures { IsCubeWith self name negated result }
    {
        if negated {
            Cube {
                positive: self.positive,
                negative: with_bit(self.negative, name),
            }
        } else {
            Cube {
                positive: with_bit(self.positive, name),
                negative: self.negative,
            }
        }
    }

    /// Whether it has a literal.
    pub fn has(self, name: u32, negated: bool) -> bool
        ensures { result ≡ has_literal self name negated }
    {
        if negated {
            has_bit(self.negative, name)
        } else {
            has_bit(self.positive, name)
        }
    }

    /// Whether `other` has all its literals.
    pub fn is_within(self, other: Cube) -> bool
        ensures { IsTrue result ↔ HasLiterals self other }
    {
        has_bits_of(other.positive, self.positive) && has_bits_of(other.negative, self.negative)
    }

    /// Returns the cube of the literals of both, or none if they contradict each other.
    pub fn join(self, other: Cube) -> Option<Cube>
        ensures some { IfSome result (IsCubeOfBoth self other) }
        ensures agree { IfSome result (λ _. AreContradictory self other → ⊥) }
        ensures none { IfNone result (AreContradictory self other) }
    {
        if have_common_bit(self.positive, other.negative)
            || have_common_bit(self.negative, other.positive)
        {
            return None;
        }
        Some(Cube {
            positive: bits_of_both(self.positive, other.positive),
            negative: bits_of_both(self.negative, other.negative),
        })
    }
}
