//! Combinations of formulas.
ghost use Rattle.std.specs.Prelude.{◌<◌};

use crate::formulas::edges::*;
use crate::formulas::words::{WordRow, is_made_as_said};
use crate::rows::assert_row;
use omega_graph_search::number_of;
use omega_ltl_parity_product::Combination::{And, Constant, Iff, Not, Or};
use omega_ltl_parity_product::{
    Combination, DeterministicAutomaton, Leaf, NondeterministicAutomaton, Refusal, leaf_of, product,
};
use std::alloc::Global;

/// The automaton of a formula and that of its negation, with one set each.
type FormulaRow = (&'static [EdgeRow], &'static [EdgeRow]);

const RECURS: FormulaRow = (&RECURRENCE, &NOT_RECURRENCE);

const COMES: FormulaRow = (&FINALLY, &NOT_FINALLY);

/// A formula, and the number of each of its names among those of the whole.
type LeafRow = (FormulaRow, &'static [u32]);

/// How many names there are, the leaves, their combination, words, and how many states the product has.
type ProductRow = (
    u32,
    &'static [LeafRow],
    &'static [Combination],
    &'static [WordRow],
    u32,
);

static PRODUCTS: [ProductRow; 7] = [
    // One leaf.
    (
        1,
        &[((&PERSISTENCE, &NOT_PERSISTENCE), &[0])],
        &[Combination::Leaf(0)],
        &PERSISTENCE_WORDS,
        1,
    ),
    (
        2,
        &[((&UNTIL, &NOT_UNTIL), &[0, 1])],
        &[Combination::Leaf(0)],
        &UNTIL_WORDS,
        2,
    ),
    (
        2,
        &[((&RESPONSE, &NOT_RESPONSE), &[0, 1])],
        &[Combination::Leaf(0)],
        &RESPONSE_WORDS,
        2,
    ),
    // `G F a & G F b`: the Zielonka tree has a leaf for each name.
    (
        2,
        &[(RECURS, &[0]), (RECURS, &[1])],
        &[Combination::Leaf(0), Combination::Leaf(1), And(0, 1)],
        &FAIRNESS_WORDS,
        2,
    ),
    // `G F a -> G F b`: the Zielonka tree is a chain, so its colours are enough.
    (
        2,
        &[(RECURS, &[0]), (RECURS, &[1])],
        &[Combination::Leaf(0), Combination::Leaf(1), Not(0), Or(2, 1)],
        &[
            (&[1, 1], &[0], true),
            (&[], &[1, 0], false),
            (&[], &[1, 2], true),
            (&[2], &[1], false),
            (&[], &[3], true),
        ],
        1,
    ),
    // `F a & F b`: which of the two came, and once both did, each word is accepted.
    (
        2,
        &[(COMES, &[0]), (COMES, &[1])],
        &[Combination::Leaf(0), Combination::Leaf(1), And(0, 1)],
        &[
            (&[1, 0, 2], &[0], true),
            (&[], &[0, 1], false),
            (&[3], &[0], true),
            (&[2, 2], &[2], false),
        ],
        4,
    ),
    // `G F a <-> F a` over one name: false once `a` comes only finitely often, and true while it does not come.
    (
        1,
        &[(RECURS, &[0]), (COMES, &[0])],
        &[Combination::Leaf(0), Combination::Leaf(1), Iff(0, 1)],
        &[
            (&[], &[0], true),
            (&[0, 1], &[0], false),
            (&[], &[0, 1], true),
            (&[1, 1, 1], &[0], false),
        ],
        2,
    ),
];

/// Returns the leaf of a formula over names with these numbers.
fn leaf_over(alloc: Global, formula: FormulaRow, names: &[u32]) -> Result<Leaf, Refusal> {
    let list = Vec::from_slice(alloc, names)?;
    match automaton_of(alloc, number_of(names.len()), 1, formula.0) {
        Ok(one) => leaf_beside(alloc, &one, formula.1, list),
        Err(refusal) => Err(refusal),
    }
}

/// Returns the leaf of a formula by its automaton and the edges of that of its negation.
fn leaf_beside(
    alloc: Global,
    one: &NondeterministicAutomaton,
    edges: &[EdgeRow],
    names: Vec<u32>,
) -> Result<Leaf, Refusal> {
    match automaton_of(alloc, number_of(names.len()), 1, edges) {
        Ok(other) => leaf_of(alloc, one, &other, names),
        Err(refusal) => Err(refusal),
    }
}

/// Adds the leaves of formulas.
fn add_leaves(alloc: Global, formulas: &[LeafRow], leaves: &mut Vec<Leaf>) -> Result<(), Refusal> {
    for (formula, names) in formulas {
        leaves.push(leaf_over(alloc, *formula, names)?)?;
    }
    Ok(())
}

/// Returns the product of a row.
fn product_of(alloc: Global, row: &ProductRow) -> Result<DeterministicAutomaton, Refusal> {
    let (names, formulas, nodes, _, _) = *row;
    let mut leaves = Vec::new(alloc);
    match add_leaves(alloc, formulas, &mut leaves) {
        Ok(()) => product(alloc, names, leaves.as_slice(), nodes),
        Err(refusal) => Err(refusal),
    }
}

#[test]
fn products_are_as_said(rt: HostRuntime) {
    for (row, one) in PRODUCTS.iter().enumerate() {
        let (_, _, _, words, states) = *one;
        let made = product_of(rt.alloc(), one);
        assert_row(&rt, row, is_made_as_said(&made, states, words));
    }
}

/// How many clients an arbiter has, words, and how many states its automaton has.
type ArbiterRow = (u32, &'static [WordRow], u32);

// Which clients wait, and for which of them the Zielonka tree waits: n * 2^n, over up to four words for each set of
// letters.
static ARBITERS: [ArbiterRow; 3] = [
    (
        2,
        &[
            (&[], &[1, 2], true),
            (&[], &[1, 8], false),
            (&[10], &[0], false),
            (&[5, 2, 8], &[0], true),
            (&[5, 2], &[0], false),
        ],
        8,
    ),
    (
        3,
        &[
            (&[21], &[2, 8, 32], true),
            (&[21], &[2, 8], false),
            (&[40], &[0], false),
        ],
        24,
    ),
    (
        4,
        &[
            (&[85], &[2, 8, 32, 128], true),
            (&[85], &[2, 8, 32], false),
            (&[160], &[0], false),
        ],
        64,
    ),
];

/// Adds the leaves of an arbiter of `clients` clients: each request is granted, and no two grants come together. The
/// name 2i is a request of the client i, and the name 2i + 1 a grant.
fn add_arbiter(alloc: Global, clients: u32, leaves: &mut Vec<Leaf>) -> Result<(), Refusal>
    requires { clients < 8 }
{
    for client in 0..clients {
        let names = [2 * client, 2 * client + 1];
        leaves.push(leaf_over(alloc, (&RESPONSE, &NOT_RESPONSE), &names)?)?;
        for other in 0..client {
            let names = [2 * other + 1, 2 * client + 1];
            leaves.push(leaf_over(alloc, (&EXCLUSION, &NOT_EXCLUSION), &names)?)?;
        }
    }
    Ok(())
}

/// Returns the product of the conjunction of leaves.
fn conjunction(
    alloc: Global,
    names: u32,
    leaves: &[Leaf],
) -> Result<DeterministicAutomaton, Refusal> {
    let count = number_of(leaves.len());
    let mut nodes = Vec::new(alloc);
    for leaf in 0..count {
        nodes.push(Combination::Leaf(leaf))?;
    }
    nodes.push(Constant(true))?;
    for leaf in 0..count {
        nodes.push(And(count.wrapping_add(leaf), leaf))?;
    }
    product(alloc, names, leaves, nodes.as_slice())
}

/// Returns the product of an arbiter of so many clients.
fn arbiter_product(alloc: Global, clients: u32) -> Result<DeterministicAutomaton, Refusal>
    requires { clients < 8 }
{
    let mut leaves = Vec::new(alloc);
    match add_arbiter(alloc, clients, &mut leaves) {
        Ok(()) => conjunction(alloc, 2 * clients, leaves.as_slice()),
        Err(refusal) => Err(refusal),
    }
}

#[test]
fn arbiters_are_as_said(rt: HostRuntime) {
    for (row, (clients, words, states)) in ARBITERS.iter().enumerate() {
        let made = arbiter_product(rt.alloc(), (*clients).min(7));
        assert_row(&rt, row, is_made_as_said(&made, *states, words));
    }
}
