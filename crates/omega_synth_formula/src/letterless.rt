//! States in which the environment has no letter such that an automaton goes on at each answer.

ghost use Rattle.std.specs.Prelude.{◌≡◌, map, option_map, IfErr, IfOk, IsOkUnless, OnOk};
ghost use Rattle.std.specs.List.{range_with_len};
ghost use Rattle.omega_hoa_automaton.specs.Automaton.{edge_count};
ghost use Rattle.omega_lang_complement.specs.Complement.{HasComplement};
ghost use Rattle.omega_synth_check.specs.CounterRefusing.{system_numbers};
ghost use Rattle.omega_synth_check.specs.WaysOut.{IsWayRefusal, is_way_out};
ghost use Rattle.omega_synth_formula.specs.Following.{IsLetterlessFound, IsLetterlessRefusal};
ghost use Rattle.omega_synth_formula.specs.private.Beside.{IsComplementOf, letterless_of};

use crate::counter::LetterlessState;
use omega_hoa_automaton::{Automaton, Refusal};
use omega_lang_complement::complement;
use omega_lang_runs::edge_places;
use omega_synth_check::{StateWithoutLetter, is_way_out, numbers_named, state_without_letter};
use omega_text::ByteString;
use std::alloc::Global;

/// Returns a state that `strategy` reaches and in which the environment has no letter such that it goes on at each
/// answer; none if the environment has one in each. The system controls the propositions whose names are `controlled`.
///
/// Looks for a state in which each letter has an answer at which the complement of `strategy` enters its sink. Fails as
/// `complement` does, or else as `state_without_letter` does.
pub(crate) fn letterless_state(
    alloc: Global,
    strategy: &Automaton,
    controlled: &[ByteString],
) -> Result<Option<LetterlessState>, Refusal>
    ensures found { IfOk result (IsLetterlessFound strategy.now controlled.now) }
    ensures given { OnOk result (HasComplement strategy.now) }
    ensures refused { IfErr result (IsLetterlessRefusal strategy.now controlled.now) }
{
    strategy.keeps_limits();
    match complement(alloc, strategy) {
        Ok(rest) => {
            rest.keeps_limits();
            letterless_in(alloc, strategy, &rest, controlled)
        }
        Err(refusal) => Err(refusal),
    }
}

/// Returns what [letterless_state] returns, where `rest` is the complement of `strategy`.
fn letterless_in(
    alloc: Global,
    strategy: &Automaton,
    rest: &Automaton,
    controlled: &[ByteString],
) -> Result<Option<LetterlessState>, Refusal>
    requires { IsComplementOf strategy.now rest.now }
    ensures found { IfOk result (IsLetterlessFound strategy.now controlled.now) }
    ensures refused { IfErr result
        (IsWayRefusal strategy.now rest.now (system_numbers rest.now.propositions controlled.now)) }
{
    rest.keeps_limits();
    let flags = ways_to_sink(alloc, rest, strategy.state_count())?;
    let system = numbers_named(alloc, rest.propositions(), controlled)?;
    let found = state_without_letter(alloc, strategy, rest, system.as_slice(), flags.as_slice())?;
    Ok(letterless_of(found))
}

/// Returns for each edge of `rest` whether it enters the state `sink` from another state.
fn ways_to_sink(alloc: Global, rest: &Automaton, sink: u32) -> Result<Vec<bool>, Refusal>
    ensures flags { IfOk result (λ flags. flags.items
        ≡ map (is_way_out rest.now sink) (range_with_len 0 (edge_count rest.now))) }
    ensures memory { IsOkUnless result Refusal.Memory }
{
    let places = edge_places(alloc, rest)?;
    let mut flags = Vec::with_capacity(alloc, places.len())?;
    for number in 0..rest.edge_count() {
        flags.push(is_way_out(rest, places.as_slice(), sink, number))?;
    }
    Ok(flags)
}

/// Returns the state that was found.
fn letterless_of(found: Option<StateWithoutLetter>) -> Option<LetterlessState>
    ensures { result ≡ option_map letterless_of found }
{
    match found {
        None => None,
        Some(found) => Some(LetterlessState {
            state: found.state,
            stem: found.stem,
        }),
    }
}
