//! The symbols of a text, and its comment.

ghost use Rattle.std.specs.Prelude.{◌≡◌, ◌≤◌, ◌<◌, ◌+◌, [], true, false, List, Ok};
ghost use Rattle.std.specs.Prelude.{IfErr, IfNone, IfOk, IfSome, drop, length, slice_index};
ghost use Rattle.omega_aiger.specs.Forms.{most_symbols};
ghost use Rattle.omega_aiger.specs.Layout.{Layout};
ghost use Rattle.omega_aiger.specs.Symbols.{ending, symbol_end, symbols_then};
ghost use Rattle.omega_aiger.specs.private.Outcome.{GoesOn, Stops, outcome};
ghost use Rattle.omega_circuit.specs.Symbols.{kind_letter};
ghost use Rattle.omega_circuit.specs.declared.parts.CircuitParts.{CircuitParts};
ghost use Rattle.omega_circuit.specs.declared.symbol.Symbol.{Symbol};
ghost use Rattle.omega_circuit.specs.declared.symbol.SymbolKind.{SymbolKind};
ghost use Rattle.omega_text.specs.Limits.{most_text};

use crate::line::{LINE_FEED, SPACE, count_in_line, next_is};
use crate::number::number_before;
use omega_circuit::{Symbol, SymbolKind};
use omega_text::{ByteString, Refusal, TextFault};
use std::alloc::Global;

/// Reads symbols from the place `at` on, and then perhaps a comment, up to the end of the text.
pub(crate) fn symbols_from(alloc: Global, text: &[u8], at: usize) -> Result<Vec<Symbol>, Refusal>
    requires at { at ≤ length text.now }
    requires short { length text.now ≤ most_text }
    ensures read { IfOk result (λ symbols. (made : List Symbol → CircuitParts)
        → outcome (symbols_then most_symbols [] made) at (drop at text.now) ≡ Ok (made symbols.items)) }
    ensures stops { IfErr result (λ refusal. (made : List Symbol → CircuitParts)
        → Stops text.now at (symbols_then most_symbols [] made) refusal) }
{
    let mut symbols = Vec::new(alloc);
    let mut end = at;
    while let Some((symbol, after)) = symbol_at(alloc, text, end)? {
        symbols.push(symbol)?;
        end = after;
    }
    Ok(symbols)
}

/// Reads the symbol at the place `at`. Returns it and the place after its line, or `None` if the text ends there or
/// a comment begins.
fn symbol_at(alloc: Global, text: &[u8], at: usize) -> Result<Option<(Symbol, usize)>, Refusal>
    requires { at ≤ length text.now }
    ensures within { IfOk result (λ found. IfSome found (λ one. one.1 ≤ length text.now)) }
    ensures onward { IfOk result (λ found. IfSome found (λ one. at < one.1)) }
    ensures read { IfOk result (λ found. IfSome found (λ one. (next : Symbol → Layout) (parts : CircuitParts)
        → GoesOn text.now at (ending next parts) one.1 (next one.0))) }
    ensures ended { IfOk result (λ found. IfNone found ((next : Symbol → Layout) (parts : CircuitParts)
        → outcome (ending next parts) at (drop at text.now) ≡ Ok parts)) }
    ensures stops { IfErr result (λ refusal. (next : Symbol → Layout) (parts : CircuitParts)
        → Stops text.now at (ending next parts) refusal) }
{
    if at == text.len() {
        return Ok(None);
    }
    let Some(kind) = kind_of(text[at]) else {
        return Err(Refusal::Text(TextFault::Syntax { at }));
    };
    if is_comment(text, at) {
        return Ok(None);
    }
    let (symbol, end) = symbol_after(alloc, text, at + 1, kind)?;
    Ok(Some((symbol, end)))
}

/// Whether a comment begins at the place `at`: a `c` and a line feed.
fn is_comment(text: &[u8], at: usize) -> bool
    requires { at < length text.now }
    ensures comment { result ≡ true → (next : Symbol → Layout) (parts : CircuitParts)
        → outcome (ending next parts) at (drop at text.now) ≡ Ok parts }
    ensures symbol { result ≡ false → (kind : SymbolKind) → kind_letter kind ≡ slice_index text.now at
        → (next : Symbol → Layout) (parts : CircuitParts)
        → GoesOn text.now at (ending next parts) (at + 1) (symbol_end kind next) }
{
    if text[at] != b'c' {
        return false;
    }
    next_is(text, at + 1, LINE_FEED)
}

/// Reads the rest of a symbol after its letter. Returns it and the place after its line.
fn symbol_after(
    alloc: Global,
    text: &[u8],
    at: usize,
    kind: SymbolKind,
) -> Result<(Symbol, usize), Refusal>
    requires { at ≤ length text.now }
    ensures within { IfOk result (λ found. found.1 ≤ length text.now) }
    ensures onward { IfOk result (λ found. at < found.1) }
    ensures read { IfOk result (λ found. (next : Symbol → Layout)
        → GoesOn text.now at (symbol_end kind next) found.1 (next found.0)) }
    ensures stops { IfErr result (λ refusal. (next : Symbol → Layout)
        → Stops text.now at (symbol_end kind next) refusal) }
{
    let (position, start) = number_before(text, at, SPACE)?;
    let rest = &text[start..];
    let count = count_in_line(rest);
    if count >= rest.len() {
        return Err(Refusal::Text(TextFault::Syntax { at: text.len() }));
    }
    let name = ByteString::from_slice(alloc, &rest[..count])?;
    let symbol = Symbol {
        kind,
        position,
        name,
    };
    Ok((symbol, start + count + 1))
}

/// Returns the kind of symbols that begin with this letter.
fn kind_of(letter: u8) -> Option<SymbolKind>
    ensures some { IfSome result (λ kind. kind_letter kind ≡ letter) }
    ensures none { IfNone result ((kind : SymbolKind) → kind_letter kind ≡ letter → ⊥) }
{
    match letter {
        b'i' => Some(SymbolKind::Input),
        b'l' => Some(SymbolKind::Latch),
        b'o' => Some(SymbolKind::Output),
        b'b' => Some(SymbolKind::Bad),
        b'c' => Some(SymbolKind::Constraint),
        b'j' => Some(SymbolKind::Justice),
        b'f' => Some(SymbolKind::Fairness),
        _ => None,
    }
}
