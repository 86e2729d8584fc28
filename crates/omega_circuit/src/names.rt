//! Which symbols name what there is.

ghost use Rattle.std.specs.Prelude.{◌↔◌, IfOk, IsTrue};
ghost use Rattle.omega_circuit.specs.Circuit.{AreNamed, AreResets};
ghost use Rattle.omega_circuit.specs.Faults.{AreSymbols, HasNoProperties};

use crate::latch::Latch;
use crate::parts::CircuitParts;
use crate::properties::Properties;
use crate::symbol::{Symbol, SymbolKind};
use indexmap::IndexSet;
use std::alloc::{AllocError, Global};

/// Whether the symbols of each kind name what there is, none of it twice.
pub(crate) fn are_symbols(alloc: Global, parts: &CircuitParts) -> Result<bool, AllocError>
    ensures { IfOk result (λ named. IsTrue named ↔ AreSymbols parts.now) }
{
    let symbols = parts.symbols.as_slice();
    let properties = &parts.properties;
    let named = are_named(alloc, SymbolKind::Input, parts.inputs.len(), symbols)?
        && are_named(alloc, SymbolKind::Latch, parts.latches.len(), symbols)?
        && are_named(alloc, SymbolKind::Output, parts.outputs.len(), symbols)?
        && are_named(alloc, SymbolKind::Bad, properties.bad.len(), symbols)?
        && are_named(
            alloc,
            SymbolKind::Constraint,
            properties.constraints.len(),
            symbols,
        )?
        && are_named(
            alloc,
            SymbolKind::Justice,
            properties.justice_sizes.len(),
            symbols,
        )?
        && are_named(
            alloc,
            SymbolKind::Fairness,
            properties.fairness.len(),
            symbols,
        )?;
    Ok(named)
}

/// Whether the symbols of a kind name positions below `count`, none twice.
fn are_named(
    alloc: Global,
    kind: SymbolKind,
    count: usize,
    symbols: &[Symbol],
) -> Result<bool, AllocError>
    ensures { IfOk result (λ named. IsTrue named ↔ AreNamed kind count symbols.now) }
{
    let letter = kind.letter();
    let mut positions = IndexSet::new(alloc);
    for symbol in symbols {
        if symbol.kind.letter() == letter {
            if symbol.position as usize >= count {
                return Ok(false);
            }
            if !positions.insert(symbol.position)? {
                return Ok(false);
            }
        }
    }
    Ok(true)
}

/// Whether each latch is 0 or 1 in the first round.
pub(crate) fn are_resets(latches: &[Latch]) -> bool
    ensures { IsTrue result ↔ AreResets latches.now }
{
    latches.iter().all(|latch| latch.reset <= 1)
}

/// Whether there are no properties.
pub(crate) fn has_no_properties(properties: &Properties) -> bool
    ensures { IsTrue result ↔ HasNoProperties properties.now }
{
    properties.bad.len() == 0
        && properties.constraints.len() == 0
        && properties.justice_sizes.len() == 0
        && properties.fairness.len() == 0
}
