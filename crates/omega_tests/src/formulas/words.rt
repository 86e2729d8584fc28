//! Words as stems and cycles of letters.
use omega_ltl_determinization::{DeterministicAutomaton, Refusal, has_letter};

/// The stem and the cycle of a word, and whether it is accepted.
pub(super) type WordRow = (&'static [u32], &'static [u32], bool);

/// A place on the run of a word, or none where no edge leads on, and the least colour since the count began.
#[derive(Clone, Copy)]
struct Place {
    state: Option<u32>,
    least: u32,
}

/// Returns the place after a letter.
fn next_place(automaton: &DeterministicAutomaton, from: Place, letter: u32) -> Place {
    if let Some(state) = from.state {
        for edge in automaton.places_of(state) {
            if has_letter(automaton.letters_of(edge), letter) {
                return Place {
                    state: Some(automaton.target(edge)),
                    least: from.least.min(automaton.colour(edge)),
                };
            }
        }
    }
    Place {
        state: None,
        least: 1,
    }
}

/// Returns the place after some letters.
fn place_after(automaton: &DeterministicAutomaton, from: Place, letters: &[u32]) -> Place {
    let mut place = from;
    for letter in letters {
        place = next_place(automaton, place, *letter);
    }
    place
}

/// Whether the word of a stem and a cycle is accepted: after as many cycles as there are states, the run goes round.
fn accepts(automaton: &DeterministicAutomaton, stem: &[u32], cycle: &[u32]) -> bool {
    let start = Place {
        state: Some(automaton.start),
        least: u32::MAX,
    };
    let mut place = place_after(automaton, start, stem);
    for _ in 0..automaton.state_count() {
        place = place_after(automaton, place, cycle);
    }
    place.least = u32::MAX;
    for _ in 0..automaton.state_count() {
        place = place_after(automaton, place, cycle);
    }
    place.state.is_some() && place.least % 2 == 0
}

/// Whether an automaton has so many states, and accepts these words as they are said to be.
fn is_as_said(automaton: &DeterministicAutomaton, states: u32, words: &[WordRow]) -> bool {
    for (stem, cycle, accepted) in words {
        if accepts(automaton, stem, cycle) != *accepted {
            return false;
        }
    }
    automaton.state_count() == states
}

/// Whether an automaton was made that is as it is said to be.
pub(super) fn is_made_as_said(
    made: &Result<DeterministicAutomaton, Refusal>,
    states: u32,
    words: &[WordRow],
) -> bool {
    match made {
        Ok(automaton) => is_as_said(automaton, states, words),
        Err(_) => false,
    }
}
