ghost use Rattle.std.specs.Prelude.{◌≡◌, count_by, is_some, nat_lt};
ghost use Rattle.std.specs.List.{list_any};
ghost use Rattle.omega_hoa_automaton.specs.Faults.{begins_capital as capital};
ghost use Rattle.omega_hoa_automaton.specs.Faults.{has_repeated_item as repeated_item};
ghost use Rattle.omega_hoa_automaton.specs.Faults.{has_unknown_capital as unknown_capital};
ghost use Rattle.omega_hoa_automaton.specs.Faults.{lacks_acceptance as no_acceptance, passes};
ghost use Rattle.omega_hoa_automaton.specs.Items.{acceptance_in, unknown_in};
ghost use Rattle.omega_hoa_automaton.specs.private.layout.Single.{says};

use omega_hoa_syntax::{RawAutomaton, RawItem};

/// The items that may not repeat.
#[derive(Clone, Copy)]
pub(crate) enum Single {
    States,
    Propositions,
    Acceptance,
    AccName,
    Tool,
    Name,
}

/// Whether an item that may not repeat is there twice ([AutomatonFault::RepeatedHeader]).
#[tactic(auto, unfolding(crate::specs::Faults::has_repeated_item))]
pub(crate) fn has_repeated_item(raw: &RawAutomaton) -> bool
    ensures { result ≡ repeated_item raw.now }
{
    let items = raw.items.as_slice();
    is_twice(Single::States, items)
        || is_twice(Single::Propositions, items)
        || is_twice(Single::Acceptance, items)
        || is_twice(Single::AccName, items)
        || is_twice(Single::Tool, items)
        || is_twice(Single::Name, items)
}

/// Whether two or more of `items` are of this kind.
fn is_twice(kind: Single, items: &[RawItem]) -> bool
    ensures { result ≡ nat_lt 1 (count_by (says kind) items.now) }
{
    1 < items.iter().filter(|item| is_of(kind, item)).count()
}

/// Whether `item` is of this kind.
fn is_of(kind: Single, item: &RawItem) -> bool
    ensures { result ≡ says kind item.now }
{
    match kind {
        Single::States => matches!(item, RawItem::States(_)),
        Single::Propositions => matches!(item, RawItem::Propositions { .. }),
        Single::Acceptance => says_acceptance(item),
        Single::AccName => matches!(item, RawItem::AccName(_)),
        Single::Tool => matches!(item, RawItem::Tool { .. }),
        Single::Name => matches!(item, RawItem::Name(_)),
    }
}

fn says_acceptance(item: &RawItem) -> bool
    ensures { result ≡ is_some (acceptance_in item.now) }
{
    matches!(item, RawItem::Acceptance { .. })
}

/// Whether there is no acceptance ([AutomatonFault::MissingAcceptance]).
#[tactic(auto, unfolding(crate::specs::Faults::lacks_acceptance))]
pub(crate) fn lacks_acceptance(raw: &RawAutomaton) -> bool
    ensures { result ≡ no_acceptance raw.now }
{
    !any_acceptance(raw.items.as_slice())
}

/// Whether one of `items` is an acceptance.
fn any_acceptance(items: &[RawItem]) -> bool
    ensures { result ≡ list_any (λ item. is_some (acceptance_in item)) items.now }
{
    for item in items {
        if says_acceptance(item) {
            return true;
        }
    }
    false
}

/// Whether a header that the format leaves open begins with a capital ([AutomatonFault::UnknownHeader]).
#[tactic(auto, unfolding(crate::specs::Faults::has_unknown_capital))]
pub(crate) fn has_unknown_capital(raw: &RawAutomaton) -> bool
    ensures { result ≡ unknown_capital raw.now }
{
    raw.items.as_slice().iter().any(is_capital)
}

/// Whether `item` is a header that the format leaves open and begins with a capital.
fn is_capital(item: &RawItem) -> bool
    ensures { result ≡ passes (λ header. capital header.name) (unknown_in item.now) }
{
    match item {
        RawItem::Unknown { name, .. } => begins_capital(name.as_slice()),
        _ => false,
    }
}

/// Whether `bytes` begin with a letter from A to Z.
fn begins_capital(bytes: &[u8]) -> bool
    ensures { result ≡ capital bytes.now }
{
    match bytes {
        [] => false,
        [first, ..] => b'A' <= *first && *first <= b'Z',
    }
}
