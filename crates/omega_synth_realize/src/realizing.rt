ghost use Rattle.std.specs.Prelude.{◌≡◌, [], IfOk, IsOkUnless, length, map};
ghost use Rattle.std.specs.List.{range_with_len};
ghost use Rattle.omega_synth_rounds.specs.Rounds.{asked_in};
ghost use Rattle.omega_synth_realize.specs.Solving.{IsOutcome, winner_of};
ghost use Rattle.omega_synth_game.specs.Laws.{IsParted};
ghost use Rattle.omega_synth_game.specs.RoundsOf.{letter_of};
ghost use Rattle.omega_synth_realize.specs.Realizing.{IsRealizability, winner_in};

use crate::Outcome;
use crate::parting::Parted;
use crate::realizability::Realizability;
use omega_hoa_automaton::Automaton;
use omega_synth_game::{
    answerings_are_controllers, askings_are_counter_strategies, met_answers_are_met,
    no_start_is_refused,
};
use omega_text::{Numbers, Refusal, Seq};
use std::alloc::Global;

/// Returns the controller or the counter-strategy that the `outcome` of the rounds of `automaton` gives.
pub(crate) fn realizability_of(
    alloc: Global,
    automaton: &Automaton,
    _controlled: &[u32],
    parted: &Parted,
    outcome: Outcome,
) -> Result<Realizability, Refusal>
    requires parted { IsParted automaton.now _controlled.now parted.now.rounds
        parted.now.letters parted.now.start }
    requires outcome { IsOutcome parted.now.rounds parted.now.start outcome }
    ensures realizability { IfOk result (IsRealizability automaton.now _controlled.now) }
    ensures winner { IfOk result (λ found. winner_in found ≡ winner_of outcome) }
    ensures memory { IsOkUnless result Refusal.Memory }
{
    answerings_are_controllers();
    askings_are_counter_strategies();
    met_answers_are_met();
    match outcome {
        Outcome::Answered { kept } => Ok(Realizability::Realizable { kept }),
        Outcome::Asked { kept, asked } => {
            let count = automaton.state_count();
            let letters = letters_by_state(
                alloc,
                count,
                parted.letters.as_slice(),
                asked.as_slice(),
            )?;
            Ok(Realizability::Unrealizable { kept, letters })
        }
    }
}

/// Returns the counter-strategy of an automaton without a start, which keeps no edges. Its letters are empty.
pub(crate) fn without_start(
    alloc: Global,
    automaton: &Automaton,
    _controlled: &[u32],
) -> Result<Realizability, Refusal>
    requires { automaton.now.starts ≡ [] }
    ensures realizability { IfOk result (IsRealizability automaton.now _controlled.now) }
    ensures memory { IsOkUnless result Refusal.Memory }
{
    no_start_is_refused();
    let letters = letters_by_state(alloc, automaton.state_count(), &[], &[])?;
    Ok(Realizability::Unrealizable {
        kept: Seq::new(alloc),
        letters,
    })
}

/// Returns for each of `count` states the letter of the question `asked` in it.
fn letters_by_state(
    alloc: Global,
    count: u32,
    letters: &[Numbers],
    asked: &[u32],
) -> Result<Seq<Numbers>, Refusal>
    ensures letters { IfOk result (λ found. found ≡ map
        (λ state. letter_of letters.now (asked_in asked.now state)) (range_with_len 0 count)) }
    ensures entries { IfOk result (λ found. length found ≡ count) }
    ensures memory { IsOkUnless result Refusal.Memory }
{
    let mut found = Vec::new(alloc);
    for state in 0..count {
        let question = question_in(asked, state);
        let letter = letter_at(alloc, letters, question)?;
        found.push(letter)?;
    }
    Ok(Seq::from_vec(found))
}

/// Returns the question `asked` in `state`, or 0 if none is listed.
fn question_in(asked: &[u32], state: u32) -> u32
    ensures { result ≡ asked_in asked.now state }
{
    if (state as usize) < asked.len() {
        asked[state as usize]
    } else {
        0
    }
}

/// Returns the letter of `question`, or the empty one if it has none.
fn letter_at(alloc: Global, letters: &[Numbers], question: u32) -> Result<Numbers, Refusal>
    ensures letter { IfOk result (λ letter. letter ≡ letter_of letters.now question) }
    ensures memory { IsOkUnless result Refusal.Memory }
{
    if (question as usize) < letters.len() {
        let letter = Numbers::from_slice(alloc, letters[question as usize].as_slice())?;
        Ok(letter)
    } else {
        Ok(Numbers::new())
    }
}
