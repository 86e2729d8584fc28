//! The inputs that the labels of edges mention, and the letters over them.

ghost use Rattle.std.specs.Prelude.{◌≡◌, ◌<◌, ◌≤◌, ◌^◌, All, IfErr, IfOk, IsOkUnless, OnOk, length};
ghost use Rattle.omega_hoa_expression.specs.Limits.{most_mentioned};
ghost use Rattle.omega_hoa_label.specs.Label.{proposition};
ghost use Rattle.omega_lang_runs.specs.Places.{ArePlaces, EdgeStandsAt};
ghost use Rattle.omega_hoa_satisfiable.specs.Satisfiable.{each_once};
ghost use Rattle.omega_synth_game.specs.Classes.{input_mentions, mentioned_inputs, label_of_number};
ghost use Rattle.omega_synth_game.specs.Letters.{letter_numbered};
ghost use Rattle.omega_synth_game.specs.private.Making.{HasManyInputs};

use crate::answering::is_among;
use omega_hoa_automaton::Automaton;
use omega_hoa_edges::edge_label;
use omega_hoa_expression::MOST_MENTIONED;
use omega_hoa_label::{Label, LabelNode, ROOM};
use omega_lang_runs::EdgePlace;
use omega_text::{Numbers, Refusal, TaskFault};
use std::alloc::{AllocError, Global};

/// Returns the propositions that the labels of the edges with these `numbers` mention and that are not `controlled`,
/// each once. Reads the `places` of all edges. Fails with [TaskFault::TooManyPropositions] if they are over
/// `MOST_MENTIONED`.
pub fn mentioned_inputs(
    alloc: Global,
    automaton: &Automaton,
    places: &[EdgePlace],
    numbers: &[u32],
    controlled: &[u32],
) -> Result<Numbers, Refusal>
    requires places { ArePlaces automaton.now places.now }
    requires numbers { All (λ number. number < length places.now) numbers.now }
    ensures inputs { IfOk result
        (λ inputs. inputs ≡ mentioned_inputs automaton.now controlled.now numbers.now) }
    ensures few { IfOk result (λ inputs. length inputs ≤ most_mentioned) }
    ensures refused { IfErr result (HasManyInputs automaton.now controlled.now numbers.now) }
{
    let mut inputs = Numbers::new();
    for number in numbers {
        let place = places[*number as usize];
        add_inputs_at(alloc, automaton, place, *number, controlled, &mut inputs)?;
        if inputs.len() > MOST_MENTIONED {
            return Err(Refusal::Task(TaskFault::TooManyPropositions));
        }
    }
    Ok(inputs)
}

/// Appends the inputs of the label of the edge with this `number`, which is at `place`, each once.
fn add_inputs_at(
    alloc: Global,
    automaton: &Automaton,
    place: EdgePlace,
    _number: u32,
    controlled: &[u32],
    inputs: &mut Numbers,
) -> Result<(), Refusal>
    requires { EdgeStandsAt automaton.now _number place }
    ensures inputs { OnOk result (inputs.new ≡ each_once inputs.old
        (input_mentions controlled.now (label_of_number automaton.now _number))) }
    ensures memory { IsOkUnless result Refusal.Memory }
{
    let count = automaton.propositions().len();
    let state = &automaton.defined()[place.state];
    let edge = state.edges.edge(place.index);
    let label = edge_label(alloc, count, state, &edge, place.index)?;
    add_inputs_of(alloc, label.get(), controlled, inputs)
}

/// Appends the inputs of `label`, each once. Linear in its nodes, without recursion.
pub(crate) fn add_inputs_of(
    alloc: Global,
    label: &Label,
    controlled: &[u32],
    inputs: &mut Numbers,
) -> Result<(), Refusal>
    ensures inputs { OnOk result
        (inputs.new ≡ each_once inputs.old (input_mentions controlled.now label.now)) }
    ensures memory { IsOkUnless result Refusal.Memory }
{
    let mut room = ROOM;
    let nodes = label.nodes(&mut room);
    for node in nodes {
        if let LabelNode::Proposition(number) = node {
            add_input(alloc, *number, controlled, inputs)?;
        }
    }
    Ok(())
}

/// Appends a proposition unless it is `controlled` or there.
fn add_input(
    alloc: Global,
    number: u32,
    controlled: &[u32],
    inputs: &mut Numbers,
) -> Result<(), Refusal>
    ensures inputs { OnOk result
        (inputs.new ≡ each_once inputs.old (input_mentions controlled.now (proposition number))) }
    ensures memory { IsOkUnless result Refusal.Memory }
{
    if is_among(controlled, number) {
        return Ok(());
    }
    if is_among(inputs.as_slice(), number) {
        return Ok(());
    }
    inputs.push(alloc, number)?;
    Ok(())
}

/// Returns the number of letters over `count` propositions.
pub(crate) fn letter_count(count: usize) -> u32
    requires { count ≤ most_mentioned }
    ensures { result ≡ 2 ^ count }
{
    1 << count
}

/// Returns the letter over `inputs` with this `number`: the inputs that hold, in the order given. Input `k` holds if
/// the binary digit `k` of the number is 1, the lowest digit being digit 0.
pub(crate) fn letter_numbered(
    alloc: Global,
    inputs: &[u32],
    number: u32,
) -> Result<Numbers, AllocError>
    ensures { IfOk result (λ letter. letter ≡ letter_numbered inputs.now number) }
{
    let mut letter = Numbers::new();
    let mut digits = number;
    for input in inputs {
        if digits % 2 == 1 {
            letter.push(alloc, *input)?;
        }
        digits /= 2;
    }
    Ok(letter)
}
