//! The line that says why an automaton is not deterministic.

ghost use Rattle.std.specs.Prelude.{◌≡◌, IfOk, IsOkUnless};
ghost use Rattle.omega_hoa_edges.specs.Refusing.{IsFirstClash};
ghost use Rattle.omega_hoa_diagnostics.specs.ChoiceCauses.{IsChoiceCause, IsChoiceLine};
ghost use Rattle.omega_hoa_diagnostics.specs.private.Found.{IsClashFound, IsStatesLine, clash_in};

use crate::choice_lines::{edges_line, starts_line};
use crate::choosing::first_choice;
use crate::labels::labels_of;
use crate::rows::row_of;
use crate::unread::line_of_unread;
use omega_hoa::{automata_are_one, automata_are_unrefused, read_one};
use omega_hoa_automaton::Automaton;
use omega_hoa_edges::check_deterministic_states;
use omega_text::{Refusal, TaskFault};
use std::alloc::Global;

/// Returns the line that says why the automaton of a text is not deterministic, with its line feed. Refused with
/// [Refusal::Memory].
///
/// If there are several starts, the line says how many. Else it names the first state of which two edges can be taken
/// at one letter, and the first such two of its edges, by the first and then by the second. Edges are numbered from 0
/// through all states of the body, in the order written.
///
/// There is no line and the result is empty:
///
/// - if `text` is not that of one automaton;
/// - if the automaton has one start at most, and of no state two edges can be taken at one letter;
/// - if that is not decided of a state, as `check_deterministic_states` says, before there is such a state.
///
/// Two edges of the state are passed over if it is not decided whether they can be taken at one letter.
///
/// Linear in the text, but for judging each two edges of a state together.
pub fn choice_cause(alloc: Global, text: &[u8]) -> Result<Vec<u8>, Refusal>
    ensures cause { IfOk result (λ line. IsChoiceCause text.now line.items) }
    ensures memory { IsOkUnless result Refusal.Memory }
{
    automata_are_one();
    automata_are_unrefused();
    match read_one(alloc, text) {
        Ok(automaton) => choice_line(alloc, &automaton),
        Err(refusal) => line_of_unread(alloc, refusal),
    }
}

/// Returns the line for an automaton.
fn choice_line(alloc: Global, automaton: &Automaton) -> Result<Vec<u8>, Refusal>
    ensures line { IfOk result (λ line. IsChoiceLine automaton.now line.items) }
    ensures memory { IsOkUnless result Refusal.Memory }
{
    let starts = automaton.starts().len();
    if starts > 1 {
        starts_line(alloc, starts)
    } else {
        line_of_states(alloc, automaton)
    }
}

/// Returns the line about the first state of which two edges can be taken together.
fn line_of_states(alloc: Global, automaton: &Automaton) -> Result<Vec<u8>, Refusal>
    ensures line { IfOk result (λ line. IsStatesLine automaton.now line.items) }
    ensures memory { IsOkUnless result Refusal.Memory }
{
    match first_clash(alloc, automaton)? {
        Some(number) => line_of_state(alloc, automaton, number),
        None => Ok(Vec::new(alloc)),
    }
}

/// Returns the number of the first state of which two edges can be taken together. None if there is none, or if that is
/// not decided.
fn first_clash(alloc: Global, automaton: &Automaton) -> Result<Option<usize>, Refusal>
    ensures clash { IfOk result (IsClashFound automaton.now) }
    ensures memory { IsOkUnless result Refusal.Memory }
{
    match check_deterministic_states(alloc, automaton) {
        Ok(()) => Ok(None),
        Err(refusal) => clash_in(refusal),
    }
}

/// Returns the state that a refusal of judging tells. [Refusal::Memory] tells nothing and is handed on.
fn clash_in(refusal: Refusal) -> Result<Option<usize>, Refusal>
    ensures { result ≡ clash_in refusal }
{
    match refusal {
        Refusal::Task(TaskFault::NotDeterministic(state)) => Ok(Some(state)),
        Refusal::Memory => Err(Refusal::Memory),
        _ => Ok(None),
    }
}

/// Returns the line about the state with the number `number`, of which two edges can be taken together.
fn line_of_state(alloc: Global, automaton: &Automaton, number: usize) -> Result<Vec<u8>, Refusal>
    requires { IsFirstClash automaton.now number }
    ensures line { IfOk result (λ line. IsStatesLine automaton.now line.items) }
    ensures memory { IsOkUnless result Refusal.Memory }
{
    let Some(row) = row_of(automaton, number) else {
        return Ok(Vec::new(alloc));
    };
    let labels = labels_of(alloc, automaton.propositions().len(), row.state)?;
    match first_choice(alloc, labels.as_slice())? {
        Some(choice) => {
            let first = row.edge_number(choice.first);
            let second = row.edge_number(choice.second);
            edges_line(alloc, number, first, second)
        }
        None => Ok(Vec::new(alloc)),
    }
}
