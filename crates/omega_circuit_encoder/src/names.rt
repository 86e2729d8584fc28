//! Names of propositions as symbols.

ghost use Rattle.std.specs.Prelude.{◌≡◌, ◌≤◌, ◌↔◌, ◌++◌, All, IfOk, IsTrue, [], length, map};
ghost use Rattle.std.specs.Prelude.{slice_index_or};
ghost use Rattle.omega_circuit_encoder.specs.Names.{IsSymbolName, names_of, symbols_from};
ghost use Rattle.omega_circuit.specs.declared.symbol.SymbolKind.TheVariants.{Input, Output};
ghost use Rattle.omega_hoa_automaton.specs.Limits.{most_propositions};

use crate::parting::propositions_of;
use omega_circuit::{Symbol, SymbolKind};
use omega_text::ByteString;
use std::alloc::{AllocError, Global};

/// Whether symbols can have these names: none is empty or has a line feed.
pub(crate) fn are_symbol_names(names: &[ByteString]) -> bool
    ensures { IsTrue result ↔ All IsSymbolName names.now }
{
    names.iter().all(|name| is_symbol_name(name.as_slice()))
}

/// Whether a symbol can have this name.
fn is_symbol_name(name: &[u8]) -> bool
    ensures { IsTrue result ↔ IsSymbolName name.now }
{
    !name.is_empty() && !name.contains(&b'\n')
}

/// Returns the names of the propositions with the numbers `controlled`, which are the system's, or, without `system`,
/// the names of the others, in the order of `names`. These are at most `MOST_PROPOSITIONS`, as an automaton has them.
/// Takes the product of the counts of names and numbers.
pub fn side_names(
    alloc: Global,
    names: &[ByteString],
    controlled: &[u32],
    system: bool,
) -> Result<Vec<ByteString>, AllocError>
    requires { length names.now ≤ most_propositions }
    ensures { IfOk result (λ made. made.items ≡ names_of system names.now controlled.now) }
{
    let numbers = propositions_of(alloc, system, names.len(), controlled)?;
    names_at(alloc, names, numbers.as_slice())
}

/// Returns the names of propositions.
fn names_at(
    alloc: Global,
    names: &[ByteString],
    numbers: &[u32],
) -> Result<Vec<ByteString>, AllocError>
    ensures { IfOk result
        (λ made. made.items ≡ map (λ p. slice_index_or names.now p []) numbers.now) }
{
    let mut made = Vec::with_capacity(alloc, numbers.len())?;
    for number in numbers {
        made.push(name_at(alloc, names, *number)?)?;
    }
    Ok(made)
}

/// Returns the name of a proposition, an empty one past the last.
fn name_at(alloc: Global, names: &[ByteString], number: u32) -> Result<ByteString, AllocError>
    ensures { IfOk result (λ name. name ≡ slice_index_or names.now number []) }
{
    match names.get(number as usize) {
        None => Ok(ByteString::new()),
        Some(name) => ByteString::from_slice(alloc, name.as_slice()),
    }
}

/// Returns the symbols of inputs and then of outputs with these names.
pub(crate) fn symbols_of(
    alloc: Global,
    inputs: &[ByteString],
    outputs: &[ByteString],
) -> Result<Vec<Symbol>, AllocError>
    requires inputs { length inputs.now ≤ most_propositions }
    requires outputs { length outputs.now ≤ most_propositions }
    ensures { IfOk result (λ symbols. symbols.items
        ≡ symbols_from Input 0 inputs.now ++ symbols_from Output 0 outputs.now) }
{
    let mut symbols = kind_symbols(alloc, SymbolKind::Input, inputs)?;
    let mut more = kind_symbols(alloc, SymbolKind::Output, outputs)?;
    symbols.append(&mut more)?;
    Ok(symbols)
}

/// Returns the symbols that give these names to the positions of a kind.
fn kind_symbols(
    alloc: Global,
    kind: SymbolKind,
    names: &[ByteString],
) -> Result<Vec<Symbol>, AllocError>
    requires { length names.now ≤ most_propositions }
    ensures { IfOk result (λ symbols. symbols.items ≡ symbols_from kind 0 names.now) }
{
    let mut symbols = Vec::new(alloc);
    for k in 0..names.len() {
        let name = ByteString::from_slice(alloc, names[k].as_slice())?;
        symbols.push(Symbol {
            kind,
            position: k as u32,
            name,
        })?;
    }
    Ok(symbols)
}
