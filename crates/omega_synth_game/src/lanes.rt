//! Labels judged at 64 letters at once, one in each lane of a word. A lane is a bit.
//!
//! A letter over some propositions has a number, whose binary digits say which of them hold. The letters of a block are
//! those whose number divided by 64 is the number of the block.

ghost use Rattle.std.specs.Prelude.{◌≡◌, ◌+◌, ◌-◌, ◌*◌, ◌^◌, ◌≤◌, ◌<◌, [], ◌∷◌};
ghost use Rattle.std.specs.Prelude.{length, filter, IfOk, IfSome, IsOkUnless, OnOk};
ghost use Rattle.omega_hoa_expression.specs.Limits.{most_mentioned};
ghost use Rattle.omega_hoa_label.specs.Label.{propositions};
ghost use Rattle.omega_hoa_satisfiable.specs.Satisfiable.{each_once};
ghost use Rattle.omega_hoa_satisfiable.specs.private.Words.{mask, pattern, top_word, word_among};
ghost use Rattle.omega_hoa_satisfiable.specs.private.Words.{word_of, word_of_truth, words_after};
ghost use Rattle.omega_synth_controllers.specs.Strategies.{is_controlled};
ghost use Rattle.omega_synth_game.specs.private.Lanes.{AreInputsFor, IsAnswerWord, IsFolded, most_free};

use crate::answering::is_among;
use crate::inputs::letter_count;
use crate::stack::Stack;
use omega_hoa_label::{Label, LabelNode, ROOM};
use omega_text::{Numbers, Refusal};
use std::alloc::Global;

/// The most propositions of the system in a label whose valuations are all tried.
const MOST_FREE: usize = 8;

/// A block of 64 letters over `inputs`.
#[derive(Clone, Copy)]
pub(crate) struct Lanes<'a> {
    /// The system's propositions.
    pub(crate) controlled: &'a [u32],
    /// The environment's propositions that are mentioned.
    pub(crate) inputs: &'a [u32],
    pub(crate) block: u32,
}

/// Returns the word whose lanes say which letters of the block `label` can answer; none if the label mentions over
/// `MOST_FREE` of the system's propositions.
///
/// Goes through the label once for each 64 letters over the inputs and these propositions: lanes that few inputs leave
/// free have further choices of the system.
pub(crate) fn answer_word(
    alloc: Global,
    label: &Label,
    lanes: &Lanes<'_>,
    stack: &mut Stack,
) -> Result<Option<u64>, Refusal>
    requires inputs { AreInputsFor lanes.now.controlled.now lanes.now.inputs.now label.now }
    requires few { length lanes.now.inputs.now ≤ most_mentioned }
    requires block { lanes.now.block * 64 < 2 ^ length lanes.now.inputs.now }
    ensures word { IfOk result (λ found. IfSome found
        (IsAnswerWord lanes.now.controlled.now lanes.now.inputs.now lanes.now.block label.now)) }
    ensures memory { IsOkUnless result Refusal.Memory }
{
    match inputs_and_free(alloc, label, lanes)? {
        None => Ok(None),
        Some(atoms) => {
            let word = word_of_blocks(label, lanes, atoms.as_slice(), stack)?;
            Ok(Some(word))
        }
    }
}

/// Returns the inputs and behind them the system's propositions that `label` mentions, each once; none if the latter
/// are over `MOST_FREE`.
fn inputs_and_free(
    alloc: Global,
    label: &Label,
    lanes: &Lanes<'_>,
) -> Result<Option<Numbers>, Refusal>
    requires { length lanes.now.inputs.now ≤ most_mentioned }
    ensures atoms { IfOk result (λ found. IfSome found (λ atoms. atoms ≡ each_once lanes.now.inputs.now
        (filter (is_controlled lanes.now.controlled.now) (propositions label.now)))) }
    ensures few { IfOk result (λ found. IfSome found (λ atoms.
        length atoms ≤ length lanes.now.inputs.now + most_free)) }
    ensures memory { IsOkUnless result Refusal.Memory }
{
    let mut room = ROOM;
    let nodes = label.nodes(&mut room);
    let most = lanes.inputs.len() + MOST_FREE;
    let mut atoms = Numbers::from_slice(alloc, lanes.inputs)?;
    for node in nodes {
        if let LabelNode::Proposition(number) = node {
            add_free(alloc, *number, lanes.controlled, &mut atoms)?;
            if atoms.len() > most {
                return Ok(None);
            }
        }
    }
    Ok(Some(atoms))
}

/// Appends a proposition if it is `controlled`, unless it is there.
fn add_free(
    alloc: Global,
    number: u32,
    controlled: &[u32],
    atoms: &mut Numbers,
) -> Result<(), Refusal>
    ensures atoms { OnOk result
        (atoms.new ≡ each_once atoms.old (filter (is_controlled controlled.now) (number ∷ []))) }
    ensures memory { IsOkUnless result Refusal.Memory }
{
    if !is_among(controlled, number) {
        return Ok(());
    }
    if is_among(atoms.as_slice(), number) {
        return Ok(());
    }
    atoms.push(alloc, number)?;
    Ok(())
}

/// Returns the word whose lanes say which letters of the block `label` can answer. `atoms` are the inputs and then the
/// system's propositions that it mentions: a letter over them has the digits of its letter over the inputs, and above
/// them those of a choice of the system.
fn word_of_blocks(
    label: &Label,
    lanes: &Lanes<'_>,
    atoms: &[u32],
    stack: &mut Stack,
) -> Result<u64, Refusal>
    requires inputs { AreInputsFor lanes.now.controlled.now lanes.now.inputs.now label.now }
    requires mentioned { length lanes.now.inputs.now ≤ most_mentioned }
    requires block { lanes.now.block * 64 < 2 ^ length lanes.now.inputs.now }
    requires atoms { atoms.now ≡ each_once lanes.now.inputs.now
        (filter (is_controlled lanes.now.controlled.now) (propositions label.now)) }
    requires few { length atoms.now ≤ length lanes.now.inputs.now + most_free }
    ensures word { IfOk result
        (IsAnswerWord lanes.now.controlled.now lanes.now.inputs.now lanes.now.block label.now) }
    ensures memory { IsOkUnless result Refusal.Memory }
{
    let mut room = ROOM;
    let nodes = label.nodes(&mut room);
    let inputs = lanes.inputs.len();
    let free = atoms.len().saturating_sub(inputs);
    let mut word = 0;
    for turn in 0..letter_count(free.saturating_sub(6usize.saturating_sub(inputs))) {
        let block = later_block(lanes.block, turn, inputs);
        let next = word_of_nodes(nodes, atoms, block, stack)?;
        word |= next;
    }
    Ok(folded_word(word, inputs))
}

/// Returns the number of the block that has the letters of `block` over `inputs` propositions and the choice `turn` of
/// those above them that the lanes have no room for.
fn later_block(block: u32, turn: u32, inputs: usize) -> u32
    requires block { block < 64 }
    requires turn { turn < 256 }
    requires inputs { inputs ≤ most_mentioned }
    ensures { result ≡ block + turn * 2 ^ (inputs - 6) }
{
    block + turn * blocks(inputs)
}

/// Returns the number of blocks of 64 letters over `count` propositions.
pub(crate) fn blocks(count: usize) -> u32
    requires { count ≤ most_mentioned }
    ensures { result ≡ 2 ^ (count - 6) }
{
    1 << count.saturating_sub(6)
}

/// Returns the word whose lane for each letter over `inputs` propositions is set if some lane of `word` with the letter
/// is. In each of the digits above, the lanes with a 1 are laid on those with a 0.
fn folded_word(word: u64, inputs: usize) -> u64
    requires { inputs ≤ most_mentioned }
    ensures { IsFolded (2 ^ inputs) (2 ^ (6 - inputs)) word result }
{
    let mut folded = word;
    for place in inputs..6 {
        folded |= folded >> letter_count(place);
    }
    folded
}

/// Returns the word of `label` in the block of letters over `atoms`.
pub(crate) fn label_word(
    label: &Label,
    atoms: &[u32],
    block: u32,
    stack: &mut Stack,
) -> Result<u64, Refusal>
    requires { length atoms.now ≤ most_mentioned + most_free }
    ensures word { IfOk result (λ word. word ≡ word_of (word_among block 0 atoms.now) label.now) }
    ensures memory { IsOkUnless result Refusal.Memory }
{
    let mut room = ROOM;
    let nodes = label.nodes(&mut room);
    let word = word_of_nodes(nodes, atoms, block, stack)?;
    Ok(word)
}

/// Returns the word of `nodes` in postfix order in the block of letters over `atoms`.
fn word_of_nodes(
    nodes: &[LabelNode],
    atoms: &[u32],
    block: u32,
    stack: &mut Stack,
) -> Result<u64, Refusal>
    requires { length atoms.now ≤ most_mentioned + most_free }
    ensures word { IfOk result
        (λ word. word ≡ top_word (words_after (word_among block 0 atoms.now) [] nodes.now)) }
    ensures memory { IsOkUnless result Refusal.Memory }
{
    stack.clear();
    for node in nodes {
        match node {
            LabelNode::Constant(value) => stack.push(truth_word(*value))?,
            LabelNode::Proposition(number) => stack.push(atom_word(atoms, block, *number))?,
            LabelNode::Not => {
                let part = stack.pop();
                stack.push(part ^ u64::MAX)?;
            }
            LabelNode::And => {
                let right = stack.pop();
                let left = stack.pop();
                stack.push(left & right)?;
            }
            LabelNode::Or => {
                let right = stack.pop();
                let left = stack.pop();
                stack.push(left | right)?;
            }
            LabelNode::Alias(_) | LabelNode::Group => {}
        }
    }
    Ok(stack.pop())
}

/// Returns the word that has the truth value `value` in each lane.
fn truth_word(value: bool) -> u64
    ensures { result ≡ word_of_truth value }
{
    if value { u64::MAX } else { 0 }
}

/// Returns the word of the proposition `number` in the block of letters over `atoms`, or 0 if it is not one of them.
fn atom_word(atoms: &[u32], block: u32, number: u32) -> u64
    requires { length atoms.now ≤ most_mentioned + most_free }
    ensures { result ≡ word_among block 0 atoms.now number }
{
    for (place, other) in atoms.iter().enumerate() {
        if *other == number {
            return pattern(block, place);
        }
    }
    0
}

/// Returns the word of the proposition at `place`: a lane has the binary digit at this place of its letter's number.
fn pattern(block: u32, place: usize) -> u64
    requires { place < most_mentioned + most_free }
    ensures { result ≡ pattern block place }
{
    if place < 6 {
        mask(place)
    } else {
        truth_word((block >> (place - 6)) & 1 == 1)
    }
}

/// Returns the word whose lanes have the binary digit of their number at `place`, which is below six.
fn mask(place: usize) -> u64
    ensures { result ≡ mask place }
{
    match place {
        0 => 0xAAAA_AAAA_AAAA_AAAA,
        1 => 0xCCCC_CCCC_CCCC_CCCC,
        2 => 0xF0F0_F0F0_F0F0_F0F0,
        3 => 0xFF00_FF00_FF00_FF00,
        4 => 0xFFFF_0000_FFFF_0000,
        _ => 0xFFFF_FFFF_0000_0000,
    }
}
