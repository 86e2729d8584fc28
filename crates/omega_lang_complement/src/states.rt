//! The states of a complement.

ghost use Rattle.std.specs.Prelude.{◌≡◌, ◌↔◌, ◌||◌, [], IsTrue, IfErr, IfOk, OnOk};
ghost use Rattle.omega_lang_complement.specs.Complement.{AreFittingAt};
ghost use Rattle.omega_hoa_edges.specs.AutomatonLabels.{labels_at};
ghost use Rattle.omega_hoa_edges.specs.Letters.{AreExclusive};
ghost use Rattle.omega_lang_complement.specs.Letters.{LacksLetter};
ghost use Rattle.omega_lang_complement.specs.Written.{IsTurnedAt};
ghost use Rattle.omega_lang_complement.specs.private.Turned.{AreRefused, AreTurned, IsRefusalAt};

use crate::turning::{Turned, turned_state};
use omega_hoa_automaton::Automaton;
use omega_hoa_edges::{StatesByNumber, undefined_state};
use omega_hoa_syntax::RawState;
use omega_text::Refusal;
use std::alloc::Global;

/// The states of a complement except the sink, and whether one of them has an edge to it.
#[derive(Drop)]
pub(crate) struct ComplementBody {
    pub(crate) states: Vec<RawState>,
    pub(crate) lacks: bool,
}

/// Returns the states of `automaton` by their numbers, each with an edge for each letter. Fails with the refusal of the
/// first state that has one: [TaskFault::TooManyPropositions], [TaskFault::TooLarge] or [TaskFault::NotDeterministic].
pub(crate) fn turned_states(alloc: Global, automaton: &Automaton) -> Result<ComplementBody, Refusal>
    ensures turned { IfOk result
        (λ body. AreTurned automaton.now automaton.now.states body.states.items body.lacks) }
    ensures err { IfErr result (AreRefused automaton.now) }
{
    match StatesByNumber::of(alloc, automaton) {
        Ok(found) => turned_among(alloc, automaton, &found),
        Err(refusal) => Err(refusal),
    }
}

/// Returns the states of `automaton` by their numbers, as `turned_states` does. `found` has those of `automaton`.
fn turned_among(
    alloc: Global,
    automaton: &Automaton,
    found: &StatesByNumber<'_>,
) -> Result<ComplementBody, Refusal>
    requires { found.now ≡ automaton.now }
    ensures turned { IfOk result
        (λ body. AreTurned automaton.now automaton.now.states body.states.items body.lacks) }
    ensures err { IfErr result (AreRefused automaton.now) }
{
    let mut states = Vec::new(alloc);
    match push_turned(alloc, &mut states, automaton, found) {
        Ok(lacks) => Ok(ComplementBody { states, lacks }),
        Err(refusal) => Err(refusal),
    }
}

/// Appends the states of `automaton` to an empty list by their numbers, each with an edge for each letter, and returns
/// whether one of them lacked a letter. Fails as `turned_states` does.
fn push_turned(
    alloc: Global,
    states: &mut Vec<RawState>,
    automaton: &Automaton,
    found: &StatesByNumber<'_>,
) -> Result<bool, Refusal>
    requires empty { states.old.items ≡ [] }
    requires found { found.now ≡ automaton.now }
    ensures turned { IfOk result (AreTurned automaton.now automaton.now.states states.new.items) }
    ensures err { IfErr result (AreRefused automaton.now) }
{
    let mut lacks = false;
    for number in 0..automaton.state_count() {
        let next = turned_at(alloc, automaton, found, number)?;
        lacks = is_either_set(lacks, next.lacks);
        states.push(next.state)?;
    }
    Ok(lacks)
}

/// Whether one of two flags is set.
fn is_either_set(one: bool, other: bool) -> bool
    ensures { result ≡ (one || other) }
{
    one || other
}

/// Returns the state with the number `number`, with an edge for each letter. Fails with
/// [TaskFault::TooManyPropositions], [TaskFault::TooLarge] or [TaskFault::NotDeterministic].
fn turned_at(
    alloc: Global,
    automaton: &Automaton,
    found: &StatesByNumber<'_>,
    number: u32,
) -> Result<Turned, Refusal>
    requires { found.now ≡ automaton.now }
    ensures turned { IfOk result (λ turned. IsTurnedAt automaton.now number turned.state) }
    ensures lacks { IfOk result
        (λ turned. IsTrue turned.lacks ↔ LacksLetter (labels_at automaton.now number)) }
    ensures apart { OnOk result (AreExclusive (labels_at automaton.now number)) }
    ensures fitting { OnOk result (AreFittingAt automaton.now number) }
    ensures err { IfErr result (IsRefusalAt automaton.now number) }
{
    let count = automaton.propositions().len();
    let sink = automaton.state_count();
    let spare = undefined_state(alloc, number);
    let state = found.find(number).unwrap_or(&spare);
    turned_state(alloc, count, sink, state)
}
