//! The names of the states of a product.

ghost use Rattle.std.specs.Prelude.{◌≡◌, None, Some, decimal, get_or, map, option_map, IfOk, IsOkUnless};
ghost use Rattle.omega_lang_product.specs.Pairs.{name_at, name_of_both, pair_name};
ghost use Rattle.omega_lang_product.specs.Pairs.{with_comma as with_comma_between};
ghost use Rattle.omega_lang_product.specs.private.Operands.{AreTabled};

use crate::operands::Operands;
use crate::table::Table;
use omega_hoa_automaton::{Automaton, State};
use omega_hoa_syntax::StateName;
use omega_text::{ByteString, Refusal, write_number};
use std::alloc::Global;

/// Returns the name of `pair`: the names of both states with a comma between them if both have one, and otherwise the
/// numbers of both.
pub(crate) fn name_of(
    alloc: Global,
    operands: &Operands<'_>,
    pair: (u32, u32),
) -> Result<StateName, Refusal>
    requires { AreTabled operands.now }
    ensures ok { IfOk result
        (λ name. name ≡ Some (pair_name operands.now.one.now operands.now.other.now pair)) }
    ensures memory { IsOkUnless result Refusal.Memory }
{
    let first = name_in(operands.one, &operands.tables.firsts, pair.0);
    let second = name_in(operands.other, &operands.tables.seconds, pair.1);
    let bytes = text_of(alloc, first, second, pair)?;
    let name = StateName::of(alloc, bytes)?;
    Ok(name)
}

/// Returns the name of `pair` by the names of both states.
fn text_of(
    alloc: Global,
    first: Option<&[u8]>,
    second: Option<&[u8]>,
    pair: (u32, u32),
) -> Result<ByteString, Refusal>
    ensures ok { IfOk result (λ text. text ≡ name_of_both (option_map (λ bytes. bytes.now) first.entry)
        (option_map (λ bytes. bytes.now) second.entry) pair) }
    ensures memory { IsOkUnless result Refusal.Memory }
{
    let Some(first) = first else {
        return numbers_of(alloc, pair);
    };
    let Some(second) = second else {
        return numbers_of(alloc, pair);
    };
    with_comma(alloc, first, second)
}

/// Returns the name of the first state of `automaton` with the number `number`, if there is one and it has a name.
/// `table` holds the edges of `automaton`.
fn name_in<'a>(automaton: &'a Automaton, table: &Table, number: u32) -> Option<&'a [u8]>
    requires { table.now.numbers.keys ≡ map (λ state. state.number) automaton.now.defined }
    ensures { option_map (λ bytes. bytes.now) result ≡ name_at automaton.now.defined number }
{
    match table.numbers.get_index_of(&number) {
        Some(place) => name_at_place(automaton.defined(), place),
        None => None,
    }
}

/// Returns the name of the state at `place`, if there is one and it has a name.
fn name_at_place(states: &[State], place: usize) -> Option<&[u8]>
    ensures { option_map (λ bytes. bytes.now) result
        ≡ get_or (map (λ state. state.name) states.now) place None }
{
    if place < states.len() {
        states[place].name.as_slice()
    } else {
        None
    }
}

/// Returns two texts with a comma between them.
fn with_comma(alloc: Global, text: &[u8], other: &[u8]) -> Result<ByteString, Refusal>
    ensures ok { IfOk result (λ bytes. bytes ≡ with_comma_between text.now other.now) }
    ensures memory { IsOkUnless result Refusal.Memory }
{
    let mut bytes = Vec::new(alloc);
    bytes.extend_from_slice(text)?;
    bytes.push(b',')?;
    bytes.extend_from_slice(other)?;
    Ok(ByteString::from_slice(alloc, bytes.as_slice())?)
}

/// Returns the two numbers of `pair` with a comma between them.
fn numbers_of(alloc: Global, pair: (u32, u32)) -> Result<ByteString, Refusal>
    ensures ok { IfOk result (λ bytes. bytes ≡ with_comma_between (decimal pair.0) (decimal pair.1)) }
    ensures memory { IsOkUnless result Refusal.Memory }
{
    let mut text = Vec::new(alloc);
    write_number(u128::from(pair.0), &mut text)?;
    text.push(b',')?;
    write_number(u128::from(pair.1), &mut text)?;
    Ok(ByteString::from_slice(alloc, text.as_slice())?)
}
