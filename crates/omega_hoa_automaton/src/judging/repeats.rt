ghost use Rattle.std.specs.Prelude.{◌≡◌, [], false, map, nat_eq, IfErr, IfOk, IsTrue};
ghost use Rattle.std.specs.List.{list_any};
ghost use Rattle.std.specs.Str.{bytes_eq};
ghost use Rattle.omega_text.specs.Cases.{IsMemory};
ghost use Rattle.omega_hoa_automaton.specs.Automaton.{has_repeat};
ghost use Rattle.omega_hoa_automaton.specs.Faults.{has_state_twice as state_twice};

use indexmap::IndexSet;
use omega_hoa_syntax::{RawAutomaton, RawState};
use omega_text::{ByteString, Refusal};
use std::alloc::Global;

/// The greatest number of names that are compared two by two, which is quicker than looking each up.
const FEW_NAMES: usize = 8;

/// Whether two states of the body have the same number ([AutomatonFault::StateTwice]).
#[tactic(auto, unfolding(crate::specs::Faults::has_state_twice))]
pub(crate) fn has_state_twice(alloc: Global, raw: &RawAutomaton) -> Result<bool, Refusal>
    ensures ok { IfOk result (λ twice. twice ≡ state_twice raw.now) }
    ensures err { IfErr result IsMemory }
{
    let states = raw.states.as_slice();
    if numbers_rise(states) {
        return Ok(false);
    }
    has_number_twice(alloc, states)
}

/// Whether each state has a greater number than the one before, as in most texts, so that no two have the same number.
/// Takes no memory.
fn numbers_rise(states: &[RawState]) -> bool
    ensures { IsTrue result → has_repeat nat_eq (map (λ state. state.number) states.now) ≡ false }
{
    let mut bound = 0u64;
    for state in states {
        let number = u64::from(state.number);
        if number < bound {
            return false;
        }
        bound = number + 1;
    }
    true
}

/// Whether two of `states` have the same number.
fn has_number_twice(alloc: Global, states: &[RawState]) -> Result<bool, Refusal>
    ensures ok { IfOk result
        (λ twice. twice ≡ has_repeat nat_eq (map (λ state. state.number) states.now)) }
    ensures err { IfErr result IsMemory }
{
    let mut seen = IndexSet::new(alloc);
    sees_number_twice(&mut seen, states)
}

/// Whether two of `states` have the same number, with `seen` empty at the start.
fn sees_number_twice(seen: &mut IndexSet<u32>, states: &[RawState]) -> Result<bool, Refusal>
    requires { seen.old.keys ≡ [] }
    ensures ok { IfOk result
        (λ twice. twice ≡ has_repeat nat_eq (map (λ state. state.number) states.now)) }
    ensures err { IfErr result IsMemory }
{
    for state in states {
        if !seen.insert(state.number)? {
            return Ok(true);
        }
    }
    Ok(false)
}

/// Whether two of `names` have equal bytes. A few names, as in nearly all automata, take no memory.
pub(crate) fn has_name_twice(alloc: Global, names: &[ByteString]) -> Result<bool, Refusal>
    ensures ok { IfOk result (λ twice. twice ≡ has_repeat bytes_eq names.now) }
    ensures err { IfErr result IsMemory }
{
    if names.len() <= FEW_NAMES {
        return Ok(any_two_alike(names));
    }
    let mut seen = IndexSet::new(alloc);
    sees_name_twice(&mut seen, names)
}

/// Whether two of `names` have equal bytes, found by comparing each with all after it.
fn any_two_alike(names: &[ByteString]) -> bool
    ensures { result ≡ has_repeat bytes_eq names.now }
{
    let mut left = names;
    while let [first, others @ ..] = left {
        if is_among(first.as_slice(), others) {
            return true;
        }
        left = others;
    }
    false
}

/// Whether one of `names` has these bytes.
fn is_among(bytes: &[u8], names: &[ByteString]) -> bool
    ensures { result ≡ list_any (λ name. bytes_eq name bytes.now) names.now }
{
    for name in names {
        if name.as_slice() == bytes {
            return true;
        }
    }
    false
}

/// Whether two of `names` have equal bytes, with `seen` empty at the start.
fn sees_name_twice<'a>(
    seen: &mut IndexSet<&'a [u8]>,
    names: &'a [ByteString],
) -> Result<bool, Refusal>
    requires { seen.old.keys ≡ [] }
    ensures ok { IfOk result (λ twice. twice ≡ has_repeat bytes_eq names.now) }
    ensures err { IfErr result IsMemory }
{
    for name in names {
        if !seen.insert(name.as_slice())? {
            return Ok(true);
        }
    }
    Ok(false)
}
