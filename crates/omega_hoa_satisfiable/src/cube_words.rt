//! The words of truth tables of labels that are disjunctions of cubes, or negations of those, by the literals of each
//! cube. That takes one pass over a label, and 64 steps for each cube.

ghost use Rattle.std.specs.Prelude.{◌≡◌, ◌++◌, ◌∷◌, [], List, bit_xor, get_or, length};
ghost use Rattle.std.specs.Prelude.{IfOk, IfSome, IsOkUnless, IsTrue, ℕ, ◌<◌};
ghost use Rattle.omega_hoa_label.specs.Label.{LabelTree};
ghost use Rattle.omega_hoa_label.specs.Postfix.{postfix};
ghost use Rattle.omega_hoa_label.specs.declared.label.LabelNode.TheVariants.{Not};
ghost use Rattle.omega_hoa_satisfiable.specs.declared.literals.Literals.{Literals};
ghost use Rattle.omega_hoa_satisfiable.specs.private.ReadCubes.{AreReadWords, AreTrueWords, AreWordsOf, IsCubeAdded};
ghost use Rattle.omega_hoa_satisfiable.specs.private.Words.{ones};

use crate::cube_reader::{CubeReader, ReadNode};
use crate::literal_lanes::{lanes_in, low_lanes};
use crate::literals::Literals;
use omega_hoa_label::LabelNode;
use omega_text::Refusal;
use std::alloc::Global;

/// How many words have the valuations of twelve propositions.
const WORDS: usize = 64;

/// Returns the words of the label of `nodes`, in postfix order. Returns none if it is no disjunction of cubes over the
/// propositions below 64, and no negation of one.
pub(crate) fn words_by_cubes(
    alloc: Global,
    nodes: &[LabelNode],
) -> Result<Option<Vec<u64>>, Refusal>
    ensures words { IfOk result (λ found. IfSome found (λ words. (tree : LabelTree)
        → nodes.now ≡ postfix tree → AreTrueWords tree words.items)) }
    ensures memory { IsOkUnless result Refusal.Memory }
{
    match part_of_negation(nodes) {
        Some(part) => words_of_negation(alloc, part),
        None => words_of_cubes(alloc, nodes),
    }
}

/// Returns the nodes before a last `!`, if that is the last.
fn part_of_negation(nodes: &[LabelNode]) -> Option<&[LabelNode]>
    ensures { IfSome result (λ part. nodes.now ≡ part.now ++ Not ∷ []) }
{
    let (node, part) = nodes.split_last()?;
    match node {
        LabelNode::Not => Some(part),
        _ => None,
    }
}

/// Returns the words of the negation of the label of `nodes`. Returns none if that is no disjunction of cubes.
fn words_of_negation(alloc: Global, nodes: &[LabelNode]) -> Result<Option<Vec<u64>>, Refusal>
    ensures words { IfOk result (λ found. IfSome found (λ words. (tree : LabelTree)
        → nodes.now ++ Not ∷ [] ≡ postfix tree → AreTrueWords tree words.items)) }
    ensures memory { IsOkUnless result Refusal.Memory }
{
    match words_of_cubes(alloc, nodes)? {
        None => Ok(None),
        Some(words) => {
            let flipped = flipped_words(alloc, words.as_slice())?;
            Ok(Some(flipped))
        }
    }
}

/// Returns the words of the disjunction of cubes of `nodes`, in postfix order, or none if it is no such.
fn words_of_cubes(alloc: Global, nodes: &[LabelNode]) -> Result<Option<Vec<u64>>, Refusal>
    ensures words { IfOk result (λ found. IfSome found (λ words. (tree : LabelTree)
        → nodes.now ≡ postfix tree → AreTrueWords tree words.items)) }
    ensures counted { IfOk result (λ found. IfSome found (λ words. length words.items ≡ 64)) }
    ensures memory { IsOkUnless result Refusal.Memory }
{
    let mut words = vec![in alloc; 0u64; WORDS]?;
    if add_cubes(nodes, words.as_mut_slice()) {
        Ok(Some(words))
    } else {
        Ok(None)
    }
}

/// Adds to `words`, which are 0, the valuations at which one of the cubes of `nodes` holds. Returns false if `nodes`
/// are no cubes that are joined by `|`.
fn add_cubes(nodes: &[LabelNode], words: &mut [u64]) -> bool
    requires { AreWordsOf [] words.old }
    ensures { IsTrue result → AreReadWords nodes.now words.new }
{
    let mut reader = CubeReader::new();
    for at in (0..nodes.len()).rev() {
        match reader.before(nodes[at]) {
            Some(ReadNode::End(next)) => reader = next,
            Some(ReadNode::Cube(literals)) => {
                add_cube(words, literals);
                reader = CubeReader::new();
            }
            None => return false,
        }
    }
    true
}

/// Adds to `words` the valuations at which all literals hold.
pub(crate) fn add_cube(words: &mut [u64], literals: Literals)
    requires { length words.old ≡ 64 }
    ensures { IsCubeAdded literals words.old words.new }
{
    let lanes = low_lanes(literals);
    for block in 0..WORDS {
        words[block] |= lanes_in(literals, lanes, block as u64);
    }
}

/// Returns words with the bits that `words` do not have.
fn flipped_words(alloc: Global, words: &[u64]) -> Result<Vec<u64>, Refusal>
    requires { length words.now ≡ 64 }
    ensures counted { IfOk result (λ flipped. length flipped.items ≡ 64) }
    ensures flipped { IfOk result (λ flipped. (block : ℕ) → block < 64
        → get_or flipped.items block 0 ≡ bit_xor (get_or words.now block 0) ones) }
    ensures memory { IsOkUnless result Refusal.Memory }
{
    let mut flipped = Vec::with_capacity(alloc, words.len())?;
    for word in words {
        flipped.push(*word ^ u64::MAX)?;
    }
    Ok(flipped)
}
