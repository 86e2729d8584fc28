//! The parts of which the text of a winner is written.

ghost use Rattle.std.specs.Prelude.{◌≡◌, false, slice_index_or};
ghost use Rattle.omega_synth_text.specs.private.Parts as parts;

use omega_hoa_automaton::Automaton;
use omega_text::Numbers;

/// The automaton, and what is kept of it.
#[derive(Clone, Copy)]
pub(crate) struct Winner<'a> {
    pub(crate) automaton: &'a Automaton,
    /// The numbers of the propositions that the system controls.
    pub(crate) controlled: &'a [u32],
    /// For each edge whether it is kept.
    pub(crate) kept: &'a [bool],
    /// For each state whether it is reached.
    pub(crate) reached: &'a [bool],
    /// For each state its new number.
    pub(crate) numbers: &'a [u32],
    /// The number of states that are reached.
    pub(crate) count: u32,
    /// The propositions that the system does not control.
    pub(crate) inputs: &'a [u32],
    /// Whether edges demand letters.
    pub(crate) lettered: bool,
    /// For each state its letter, if edges demand letters: the propositions that hold.
    pub(crate) letters: &'a [Numbers],
}

/// Whether the flag of `number` is set.
pub(crate) fn is_set(flags: &[bool], number: usize) -> bool
    ensures { result ≡ parts.flag flags.now number }
{
    number < flags.len() && flags[number]
}

/// Returns the new number of `state`, or 0 if there is none.
pub(crate) fn new_number(numbers: &[u32], state: u32) -> u32
    ensures { result ≡ slice_index_or numbers.now state 0 }
{
    let at = state as usize;
    if at < numbers.len() { numbers[at] } else { 0 }
}
