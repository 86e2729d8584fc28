ghost use Rattle.std.specs.Prelude.{◌≡◌, false, IfOk, IsOkUnless};
ghost use Rattle.omega_hoa_automaton.specs.Branching.{has_universal_branching};
ghost use Rattle.omega_canon.specs.Canonical.{canonical_automaton};
ghost use Rattle.omega_synth_text.specs.Winner.{IsControllerText, IsCounterStrategyText};
ghost use Rattle.omega_synth_text.specs.Winner.{IsWinnerText, inputs_of as inputs_among};
ghost use Rattle.omega_synth_text.specs.private.Parts.{IsReady, automaton_by, letters_for};

use crate::body::write_body;
use crate::flags::kept_flags;
use crate::header::write_header;
use crate::letters::inputs_of;
use crate::numbering::new_numbers;
use crate::parts::Winner;
use crate::reaching::reached_states;
use omega_hoa_automaton::Automaton;
use omega_text::{Numbers, Refusal};
use std::alloc::Global;

/// Returns the canonical text of the automaton of the `kept` edges of `automaton`, given by number: of a controller,
/// where the system controls the propositions with the numbers `controlled`.
///
/// States that kept edges do not lead to from a start are left out, and the others are numbered in their order. Labels
/// of states move to their edges, and an edge without a label gets that of its valuation. All words are accepted. The
/// header item `controllable-AP:` stands after the acceptance, where headers that the format leaves open stand.
///
/// Linear in the states, the edges and the text.
pub fn controller_text(
    alloc: Global,
    automaton: &Automaton,
    controlled: &[u32],
    kept: &[u32],
) -> Result<Vec<u8>, Refusal>
    requires { has_universal_branching automaton.now ≡ false }
    ensures text { IfOk result
        (λ text. IsControllerText automaton.now controlled.now kept.now text.items) }
    ensures memory { IsOkUnless result Refusal.Memory }
{
    winner_text(alloc, automaton, controlled, kept, false, &[])
}

/// Returns the canonical text of the automaton of the `kept` edges of `automaton` as [controller_text] does, of a
/// counter-strategy: the label of each edge also demands the letter of its state. A state of which no edge is kept gets
/// one back to it, for its letter. The `letters` list the propositions that hold, by state.
pub fn counter_strategy_text(
    alloc: Global,
    automaton: &Automaton,
    controlled: &[u32],
    kept: &[u32],
    letters: &[Numbers],
) -> Result<Vec<u8>, Refusal>
    requires { has_universal_branching automaton.now ≡ false }
    ensures text { IfOk result
        (λ text. IsCounterStrategyText automaton.now controlled.now kept.now letters.now text.items) }
    ensures memory { IsOkUnless result Refusal.Memory }
{
    winner_text(alloc, automaton, controlled, kept, true, letters)
}

/// Returns the canonical text of the automaton of the `kept` edges, which also demand the letter of their state if
/// `lettered` is set.
fn winner_text(
    alloc: Global,
    automaton: &Automaton,
    controlled: &[u32],
    kept: &[u32],
    lettered: bool,
    letters: &[Numbers],
) -> Result<Vec<u8>, Refusal>
    requires { has_universal_branching automaton.now ≡ false }
    ensures text { IfOk result (λ text. IsWinnerText automaton.now controlled.now kept.now
        (letters_for lettered (inputs_among automaton.now controlled.now) letters.now) text.items) }
    ensures memory { IsOkUnless result Refusal.Memory }
{
    let states = reached_states(alloc, automaton, kept)?;
    let reached = states.as_slice();
    let numbering = new_numbers(alloc, automaton.state_count(), reached)?;
    let numbers = numbering.numbers.as_slice();
    let edges = kept_flags(alloc, automaton.edge_count(), kept)?;
    let flags = edges.as_slice();
    automaton.keeps_limits();
    let propositions = automaton.propositions().len() as u32;
    let uncontrolled = inputs_of(alloc, propositions, controlled)?;
    let inputs = uncontrolled.as_slice();
    let winner = Winner {
        automaton,
        controlled,
        kept: flags,
        reached,
        numbers,
        count: numbering.count,
        inputs,
        lettered,
        letters,
    };
    canonical_winner(alloc, &winner)
}

/// Returns the canonical text of a winner whose parts are made.
fn canonical_winner(alloc: Global, winner: &Winner<'_>) -> Result<Vec<u8>, Refusal>
    requires { IsReady winner.now }
    ensures text { IfOk result (λ text. text.items ≡ canonical_automaton (automaton_by winner.now)) }
    ensures memory { IsOkUnless result Refusal.Memory }
{
    let mut text = Vec::with_capacity(alloc, 128)?;
    write_header(winner, &mut text)?;
    write_body(winner, &mut text)?;
    Ok(text)
}
