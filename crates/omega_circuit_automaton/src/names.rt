//! The names of inputs and outputs.

ghost use Rattle.std.specs.Prelude.{◌≡◌, ◌≤◌, ◌+◌, ◌↔◌, ◌∷◌, ◌++◌, ℕ, List, All, IfErr};
ghost use Rattle.std.specs.Prelude.{IfNone, IfOk, IfSome, IsTrue, OnOk, decimal, length, map};
ghost use Rattle.std.specs.List.{list_any, range_with_len};
ghost use Rattle.std.specs.Str.{bytes_eq};
ghost use Rattle.omega_text.specs.Cases.{IsMemory};
ghost use Rattle.omega_text.specs.hoa.Forms.{IsQuotable};
ghost use Rattle.omega_hoa_automaton.specs.Automaton.{has_repeat};
ghost use Rattle.omega_hoa_automaton.specs.Limits.{most_propositions};
ghost use Rattle.omega_circuit.specs.Rounds.{name_of};
ghost use Rattle.omega_circuit.specs.Symbols.{kind_letter};
ghost use Rattle.omega_circuit.specs.declared.symbol.Symbol.{Symbol};
ghost use Rattle.omega_circuit_automaton.specs.Names.{AreFit, IsNameRefusal, first_names, proposition_names};
ghost use Rattle.omega_circuit_automaton.specs.private.Quotable.{Continues};

use omega_circuit::{Circuit, Symbol, SymbolKind};
use omega_hoa_automaton::MOST_PROPOSITIONS;
use omega_text::{AutomatonFault, ByteString, CircuitFault, Refusal, write_number};
use std::alloc::Global;

/// Returns the names of the inputs and then those of the outputs, as they are the propositions of the automaton. Takes
/// linear time in the symbols, and compares each name with each other one.
///
/// Fails with [AutomatonFault::Proposition] if two of them are alike or they are over `MOST_PROPOSITIONS`, else with
/// [CircuitFault::Name] if a name is no string of the Hanoi format (HOA v1, tokens).
pub fn proposition_names(alloc: Global, circuit: &Circuit) -> Result<Vec<ByteString>, Refusal>
    ensures names { IfOk result (λ names. names.items ≡ proposition_names circuit.now) }
    ensures few { OnOk result
        (length circuit.now.inputs + length circuit.now.outputs ≤ most_propositions) }
    ensures fit { OnOk result (AreFit (proposition_names circuit.now)) }
    ensures err { IfErr result (IsNameRefusal (proposition_names circuit.now) IsMemory) }
{
    if circuit.inputs().len() + circuit.outputs().len() > MOST_PROPOSITIONS {
        return Err(Refusal::Automaton(AutomatonFault::Proposition));
    }
    let names = names_of_both(alloc, circuit)?;
    if has_repeat(names.as_slice()) {
        return Err(Refusal::Automaton(AutomatonFault::Proposition));
    }
    if are_quotable(names.as_slice()) {
        return Ok(names);
    }
    Err(Refusal::Circuit(CircuitFault::Name))
}

/// Returns the names of the inputs and then those of the outputs.
fn names_of_both(alloc: Global, circuit: &Circuit) -> Result<Vec<ByteString>, Refusal>
    ensures names { IfOk result (λ names. names.items ≡ proposition_names circuit.now) }
    ensures memory { IfErr result IsMemory }
{
    let symbols = circuit.symbols();
    let mut names = names_of(alloc, SymbolKind::Input, circuit.inputs().len(), symbols)?;
    let mut ends = names_of(alloc, SymbolKind::Output, circuit.outputs().len(), symbols)?;
    names.append(&mut ends)?;
    Ok(names)
}

/// Returns the names of the first positions of a kind.
fn names_of(
    alloc: Global,
    kind: SymbolKind,
    count: usize,
    symbols: &[Symbol],
) -> Result<Vec<ByteString>, Refusal>
    ensures names { IfOk result (λ names. names.items ≡ first_names kind count symbols.now) }
    ensures memory { IfErr result IsMemory }
{
    let mut names = default_names(alloc, kind, count)?;
    for at in 0..symbols.len() {
        let symbol = &symbols[symbols.len() - 1 - at];
        note(alloc, kind, symbol, &mut names)?;
    }
    Ok(names)
}

/// Puts the name of a symbol at its position, if it is of a kind and its position is among those of `names`.
fn note(
    alloc: Global,
    kind: SymbolKind,
    symbol: &Symbol,
    names: &mut Vec<ByteString>,
) -> Result<(), Refusal>
    ensures names { OnOk result
        ((count : ℕ) (rest : List Symbol) → names.old.items ≡ first_names kind count rest
        → names.new.items ≡ first_names kind count (symbol.now ∷ rest)) }
    ensures memory { IfErr result IsMemory }
{
    if symbol.kind.letter() != kind.letter() {
        return Ok(());
    }
    let at = symbol.position as usize;
    if at < names.len() {
        names[at] = ByteString::from_slice(alloc, symbol.name.as_slice())?;
    }
    Ok(())
}

/// Returns the names of the first positions of a kind without symbols.
fn default_names(alloc: Global, kind: SymbolKind, count: usize) -> Result<Vec<ByteString>, Refusal>
    ensures names { IfOk result (λ names. names.items
        ≡ map (λ position. kind_letter kind ∷ decimal position) (range_with_len 0 count)) }
    ensures memory { IfErr result IsMemory }
{
    let mut names = Vec::with_capacity(alloc, count)?;
    for position in 0..count {
        names.push(default_name(alloc, kind, position)?)?;
    }
    Ok(names)
}

/// Returns the name of a position of a kind without a symbol: its letter and the position.
fn default_name(alloc: Global, kind: SymbolKind, position: usize) -> Result<ByteString, Refusal>
    ensures name { IfOk result (λ name. name ≡ kind_letter kind ∷ decimal position) }
    ensures memory { IfErr result IsMemory }
{
    let mut bytes = Vec::new(alloc);
    bytes.push(kind.letter())?;
    write_number(position as u128, &mut bytes)?;
    Ok(ByteString::from_slice(alloc, bytes.as_slice())?)
}

/// Whether two names are alike.
fn has_repeat(names: &[ByteString]) -> bool
    ensures { result ≡ has_repeat bytes_eq names.now }
{
    for at in 0..names.len() {
        if is_among(names[at].as_slice(), &names[at + 1..]) {
            return true;
        }
    }
    false
}

/// Whether a name is among others.
fn is_among(name: &[u8], others: &[ByteString]) -> bool
    ensures { result ≡ list_any (λ other. bytes_eq other name.now) others.now }
{
    others.iter().any(|other| other.as_slice() == name)
}

/// Whether all names can stand between quotes.
fn are_quotable(names: &[ByteString]) -> bool
    ensures { IsTrue result ↔ All IsQuotable names.now }
{
    names.iter().all(|name| is_quotable(name.as_slice()))
}

/// Whether a name can stand between quotes: a backslash takes the next byte with it, and no other quote is there.
fn is_quotable(name: &[u8]) -> bool
    ensures { IsTrue result ↔ IsQuotable name.now }
{
    let mut is_escaped = false;
    for byte in name {
        let Some(escapes) = escapes_next(*byte, is_escaped) else {
            return false;
        };
        is_escaped = escapes;
    }
    !is_escaped
}

/// Whether a byte escapes the next one, or `None` if it is a quote that is not escaped itself.
fn escapes_next(byte: u8, is_escaped: bool) -> Option<bool>
    ensures some { IfSome result
        (λ escapes. (rest : List ℕ) → Continues is_escaped (byte ∷ rest) ↔ Continues escapes rest) }
    ensures none { IfNone result ((rest : List ℕ) → Continues is_escaped (byte ∷ rest) → ⊥) }
{
    if is_escaped {
        return Some(false);
    }
    if byte == b'"' {
        return None;
    }
    Some(byte == b'\\')
}
