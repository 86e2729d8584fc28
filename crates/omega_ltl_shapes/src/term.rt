ghost use Rattle.std.specs.Prelude.{◌≡◌, ◌↔◌, [], IfOk, IfNone, IfSome, IsTrue};
ghost use Rattle.omega_ltl_shapes.specs.Terms.{AreContradictory, IsOfBoth, IsWithin, no_literals};

use crate::bits::{bits_of_both, has_bits_of};
use crate::cube::Cube;
use crate::items::{has_items, items_of_both};
use omega_text::Numbers;
use std::alloc::{AllocError, Global};

/// What an edge fixes.
#[derive(Debug)]
pub struct Term {
    /// The literals that hold now.
    pub cube: Cube,
    /// The demands on the next index.
    pub next: Numbers,
    /// The strong demands whose goal is postponed: a bit for each of their sets.
    pub late: u64,
}

impl Drop for Term {
    fn drop(self) {
        let Term {
            cube: _,
            next: _,
            late: _,
        } = self;
    }
}

impl Term {
    /// Returns the term that fixes nothing.
    pub fn empty() -> Term
        ensures cube { result.cube ≡ no_literals }
        ensures next { result.next ≡ [] }
        ensures late { result.late ≡ 0 }
    {
        Term {
            cube: Cube::empty(),
            next: Numbers::new(),
            late: 0,
        }
    }

    /// Returns a copy.
    pub fn copy(&self, alloc: Global) -> Result<Term, AllocError>
        ensures { IfOk result (λ copy. copy ≡ self.now) }
    {
        Ok(Term {
            cube: self.cube,
            next: Numbers::from_slice(alloc, self.next.as_slice())?,
            late: self.late,
        })
    }

    /// Whether `other` fixes all that it fixes.
    pub fn is_within(&self, other: &Term) -> bool
        ensures { IsTrue result ↔ IsWithin self.now other.now }
    {
        if !self.cube.is_within(other.cube) {
            return false;
        }
        if !has_bits_of(other.late, self.late) {
            return false;
        }
        has_items(other.next.as_slice(), self.next.as_slice())
    }

    /// Returns the term that fixes what both fix, or none if their literals contradict each other.
    pub fn join(&self, alloc: Global, other: &Term) -> Result<Option<Term>, AllocError>
        ensures some { IfOk result (λ found. IfSome found (IsOfBoth self.now other.now)) }
        ensures agree { IfOk result
            (λ found. IfSome found (λ _. AreContradictory self.now.cube other.now.cube → ⊥)) }
        ensures none { IfOk result
            (λ found. IfNone found (AreContradictory self.now.cube other.now.cube)) }
    {
        match self.cube.join(other.cube) {
            None => Ok(None),
            Some(cube) => Ok(Some(Term {
                cube,
                next: items_of_both(alloc, self.next.as_slice(), other.next.as_slice())?,
                late: bits_of_both(self.late, other.late),
            })),
        }
    }
}
