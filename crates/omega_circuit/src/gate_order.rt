//! An order of gates in which each comes after those that it uses: a depth-first search over the gates, without
//! recursion.

ghost use Rattle.std.specs.Prelude.{◌≡◌, ◌<◌, ◌+◌, ◌-◌, ◌*◌, ◌/◌, [], ◌∷◌, ◌++◌, false, true, not, All};
ghost use Rattle.std.specs.Prelude.{IfNone, IfOk, IfSome, OnOk, length, slice_index, slice_set, take};
ghost use Rattle.std.specs.List.{count_by};
ghost use Rattle.omega_circuit.specs.private.Orders.{IsCyclic, IsLook, IsLookAtGate, IsSearch, IsWholeOrder};
ghost use Rattle.omega_circuit.specs.private.Orders.{IsWired, StaysFound, flag_at};

use crate::gate::Gate;
use std::alloc::{AllocError, Global};

/// What an operand of a gate is to the search.
#[derive(Clone, Copy)]
enum Look {
    /// It is no gate, or a gate that the search left.
    Settled,
    /// A gate that the search did not find yet.
    Waiting(usize),
    /// A gate on the path.
    Open,
}

/// Returns all gates in an order in which each comes after those that it uses, or `None` if a gate uses itself,
/// through gates. Their literals are numbered, and the gates themselves from `first` on. Takes linear time.
pub(crate) fn order_of(
    alloc: Global,
    first: usize,
    nets: &[Gate],
) -> Result<Option<Vec<usize>>, AllocError>
    requires { IsWired first nets.now }
    ensures order { IfOk result (λ found. IfSome found (λ order. IsWholeOrder first nets.now order.items)) }
    ensures cycle { IfOk result (λ found. IfNone found (IsCyclic first nets.now)) }
{
    let mut search = GateSearch::new(alloc, nets.len())?;
    for root in 0..nets.len() {
        if !search.search_from(first, nets, root)? {
            return Ok(None);
        }
    }
    Ok(Some(search.order))
}

/// A search for an order of gates.
#[derive(Drop)]
struct GateSearch {
    /// By gate, whether it was found.
    found: Vec<bool>,
    /// By gate, whether the search left it.
    left: Vec<bool>,
    /// The gates that were found and not left, each used by the one before it.
    path: Vec<usize>,
    /// The gates that were left, in that order.
    order: Vec<usize>,
}

impl GateSearch {
    /// Returns a search among `count` gates that found none.
    fn new(alloc: Global, count: usize) -> Result<GateSearch, AllocError>
        ensures found { IfOk result (λ search. (length search.found.items ≡ count)
            × All (λ flag. flag ≡ false) search.found.items) }
        ensures left { IfOk result (λ search. (length search.left.items ≡ count)
            × All (λ flag. flag ≡ false) search.left.items) }
        ensures path { IfOk result (λ search. search.path.items ≡ []) }
        ensures order { IfOk result (λ search. search.order.items ≡ []) }
    {
        let found = vec![in alloc; false; count]?;
        let left = vec![in alloc; false; count]?;
        let order = Vec::with_capacity(alloc, count)?;
        Ok(GateSearch {
            found,
            left,
            path: Vec::new(alloc),
            order,
        })
    }

    /// Finds `root` and all gates that it leads to, unless it was found, and leaves them again. Returns whether none of
    /// them uses itself, through gates.
    fn search_from(&mut self, first: usize, nets: &[Gate], root: usize) -> Result<bool, AllocError>
        requires wired { IsWired first nets.now }
        requires search { IsSearch first nets.now self.old.found.items self.old.left.items
            self.old.path.items self.old.order.items }
        requires path { self.old.path.items ≡ [] }
        requires root { root < length nets.now }
        ensures search { IfOk result (λ acyclic. acyclic ≡ true → IsSearch first nets.now
            self.new.found.items self.new.left.items self.new.path.items self.new.order.items) }
        ensures path { IfOk result (λ acyclic. acyclic ≡ true → self.new.path.items ≡ []) }
        ensures found { IfOk result (λ acyclic. acyclic ≡ true
            → (flag_at self.new.found.items root ≡ true)
            × StaysFound self.old.found.items self.new.found.items) }
        ensures cycle { IfOk result (λ acyclic. acyclic ≡ false → IsCyclic first nets.now) }
    {
        if self.found[root] {
            return Ok(true);
        }
        self.enter(root)?;
        while let Some(gate) = self.path.last().copied() {
            if !self.step(first, nets, gate)? {
                return Ok(false);
            }
        }
        Ok(true)
    }

    /// Goes on from the gate at the end of the path: to a gate that it uses, or out of it. Returns whether it uses no
    /// gate on the path.
    fn step(&mut self, first: usize, nets: &[Gate], gate: usize) -> Result<bool, AllocError>
        requires wired { IsWired first nets.now }
        requires search { IsSearch first nets.now self.old.found.items self.old.left.items
            self.old.path.items self.old.order.items }
        requires some { 0 < length self.old.path.items }
        requires last { slice_index self.old.path.items (length self.old.path.items - 1) ≡ gate }
        ensures search { IfOk result (λ acyclic. acyclic ≡ true → IsSearch first nets.now
            self.new.found.items self.new.left.items self.new.path.items self.new.order.items) }
        ensures found { IfOk result (λ acyclic. acyclic ≡ true
            → StaysFound self.old.found.items self.new.found.items) }
        ensures nearer { IfOk result (λ acyclic. acyclic ≡ true
            → 2 * count_by not self.new.found.items + length self.new.path.items
            < 2 * count_by not self.old.found.items + length self.old.path.items) }
        ensures cycle { IfOk result (λ acyclic. acyclic ≡ false → IsCyclic first nets.now) }
    {
        match look_at_gate(
            first,
            self.found.as_slice(),
            self.left.as_slice(),
            nets[gate],
        ) {
            Look::Open => Ok(false),
            Look::Waiting(used) => {
                self.enter(used)?;
                Ok(true)
            }
            Look::Settled => {
                self.leave(gate)?;
                Ok(true)
            }
        }
    }

    /// Puts a gate that is found now at the end of the path.
    fn enter(&mut self, gate: usize) -> Result<(), AllocError>
        requires { gate < length self.old.found.items }
        ensures found { OnOk result (self.new.found.items ≡ slice_set self.old.found.items gate true) }
        ensures path { OnOk result (self.new.path.items ≡ self.old.path.items ++ gate ∷ []) }
        ensures left { self.new.left.items ≡ self.old.left.items }
        ensures order { self.new.order.items ≡ self.old.order.items }
    {
        self.path.push(gate)?;
        self.found[gate] = true;
        Ok(())
    }

    /// Takes the gate at the end of the path to the end of the order.
    fn leave(&mut self, gate: usize) -> Result<(), AllocError>
        requires { gate < length self.old.left.items }
        ensures left { OnOk result (self.new.left.items ≡ slice_set self.old.left.items gate true) }
        ensures order { OnOk result (self.new.order.items ≡ self.old.order.items ++ gate ∷ []) }
        ensures path { OnOk result
            (self.new.path.items ≡ take (length self.old.path.items - 1) self.old.path.items) }
        ensures found { self.new.found.items ≡ self.old.found.items }
    {
        self.order.push(gate)?;
        self.left[gate] = true;
        let _ = self.path.pop();
        Ok(())
    }
}

/// Looks at one operand of a gate and, if it is settled, at the other.
fn look_at_gate(first: usize, found: &[bool], left: &[bool], net: Gate) -> Look
    requires lengths { length left.now ≡ length found.now }
    requires one { net.left / 2 < first + length found.now }
    requires other { net.right / 2 < first + length found.now }
    ensures { IsLookAtGate first found.now left.now net result }
{
    match look_at(first, found, left, net.left) {
        Look::Settled => look_at(first, found, left, net.right),
        look => look,
    }
}

/// Looks at one operand.
fn look_at(first: usize, found: &[bool], left: &[bool], literal: u32) -> Look
    requires lengths { length left.now ≡ length found.now }
    requires within { literal / 2 < first + length found.now }
    ensures { IsLook first found.now left.now literal result }
{
    let number = literal as usize / 2;
    if number < first {
        return Look::Settled;
    }
    let gate = number - first;
    if !found[gate] {
        Look::Waiting(gate)
    } else if left[gate] {
        Look::Settled
    } else {
        Look::Open
    }
}
