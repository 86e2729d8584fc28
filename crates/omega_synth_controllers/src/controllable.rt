ghost use Rattle.std.specs.Prelude.{◌≡◌, ◌<◌, [], ◌∷◌, IfErr, IfOk, MatchOption};
ghost use Rattle.std.specs.Prelude.{filter, length, slice_index_or};
ghost use Rattle.std.specs.List.{list_any};
ghost use Rattle.omega_hoa_automaton.specs.declared.header.Header.{Header as header_item};
ghost use Rattle.omega_synth_controllers.specs.Controllable.{AreNumbersOf, HasControlled};
ghost use Rattle.omega_synth_controllers.specs.Controllable.{HasStated, IsControlled};
ghost use Rattle.omega_synth_controllers.specs.Controllable.{IsMisstated, IsStated, HasNumbers};
ghost use Rattle.omega_synth_controllers.specs.Controllable.{has_item as has_item_of};
ghost use Rattle.omega_synth_controllers.specs.Controllable.{is_controllable_item};

use omega_hoa_automaton::{Automaton, Header, HeaderValue};
use omega_text::{Numbers, Refusal, TaskFault};
use std::alloc::Global;

/// Returns the numbers of the propositions that the system controls, in the order of the header item
/// `controllable-AP:` (extended HOA, as synthesis tools write it). Without the item the system controls none.
///
/// Fails with [TaskFault::Controllable] if the item stands twice, or lists something that is no number, a number that
/// no proposition has, or a number twice. At most the square of the count of propositions.
pub fn controlled_propositions(alloc: Global, automaton: &Automaton) -> Result<Numbers, Refusal>
    ensures controlled { IfOk result (IsControlled automaton.now) }
    ensures refused { IfErr result (IsMisstated (HasControlled automaton.now)) }
{
    let headers = automaton.unknown();
    let count = automaton.propositions().len();
    match only_item(headers)? {
        None => Ok(Numbers::new()),
        Some(at) => numbers_in(alloc, headers[at].values.as_slice(), count),
    }
}

/// Returns the numbers of the propositions that the system controls, as [controlled_propositions] does, of an automaton
/// that has to have the item.
///
/// Fails with [TaskFault::Controllable] if it has none, or if that fails.
pub fn stated_propositions(alloc: Global, automaton: &Automaton) -> Result<Numbers, Refusal>
    ensures stated { IfOk result (IsStated automaton.now) }
    ensures refused { IfErr result (IsMisstated (HasStated automaton.now)) }
{
    if has_controllable_item(automaton) {
        controlled_propositions(alloc, automaton)
    } else {
        Err(Refusal::Task(TaskFault::Controllable))
    }
}

/// Whether the header of `automaton` has the item `controllable-AP:`.
pub fn has_controllable_item(automaton: &Automaton) -> bool
    ensures { result ≡ has_item_of automaton.now }
{
    has_item(automaton.unknown())
}

/// Returns the index of the item `controllable-AP:` among `headers`, if it stands there. Fails with
/// [TaskFault::Controllable] if it stands there twice.
fn only_item(headers: &[Header]) -> Result<Option<usize>, Refusal>
    ensures item { IfOk result (λ found. MatchOption found
        (filter is_controllable_item headers.now ≡ [])
        (λ at. (at < length headers.now) × ((d : header_item)
        → filter is_controllable_item headers.now ≡ slice_index_or headers.now at d ∷ []))) }
    ensures refused { IfErr result
        (IsMisstated (length (filter is_controllable_item headers.now) < 2)) }
{
    for at in 0..headers.len() {
        if is_controllable(&headers[at]) {
            if has_item(&headers[at + 1..]) {
                return Err(Refusal::Task(TaskFault::Controllable));
            }
            return Ok(Some(at));
        }
    }
    Ok(None)
}

/// Whether the item `controllable-AP:` is among `headers`.
fn has_item(headers: &[Header]) -> bool
    ensures { result ≡ list_any is_controllable_item headers.now }
{
    headers.iter().any(|header| is_controllable(header))
}

/// Whether the name of `header` is `controllable-AP`.
fn is_controllable(header: &Header) -> bool
    ensures { result ≡ is_controllable_item header.now }
{
    header.name.as_slice() == b"controllable-AP".as_slice()
}

/// Returns the numbers in `values`, for `count` propositions. Fails with [TaskFault::Controllable] if a value is no
/// number, or a number that no proposition has, or one that stands before.
fn numbers_in(alloc: Global, values: &[HeaderValue], count: usize) -> Result<Numbers, Refusal>
    ensures numbers { IfOk result (AreNumbersOf count values.now) }
    ensures refused { IfErr result (IsMisstated (HasNumbers count values.now)) }
{
    let mut numbers = Numbers::new();
    for value in values {
        match value {
            HeaderValue::Number(number) => {
                if *number as usize >= count || numbers.as_slice().contains(number) {
                    return Err(Refusal::Task(TaskFault::Controllable));
                }
                numbers.push(alloc, *number)?;
            }
            _ => return Err(Refusal::Task(TaskFault::Controllable)),
        }
    }
    Ok(numbers)
}
