//! The header of the automaton of a circuit, as a text writes it.

ghost use Rattle.std.specs.Prelude.{◌≡◌, ◌≤◌, ◌+◌, ◌-◌, IfOk, codes, length, map};
ghost use Rattle.std.specs.List.{range_with_len};
ghost use Rattle.omega_hoa_automaton.specs.Limits.{most_propositions};
ghost use Rattle.omega_hoa_edges.specs.Limits.{most_states};
ghost use Rattle.omega_hoa_syntax.specs.declared.header_value.HeaderValue.TheVariants.{Number};
ghost use Rattle.omega_hoa_syntax.specs.declared.raw_item.RawItem.TheVariants as item;
ghost use Rattle.omega_circuit_automaton.specs.private.Written.{header_of};

use omega_hoa_syntax::{HeaderValue, RawItem};
use omega_lang_product::{buchi_formula, buchi_name};
use omega_text::{ByteString, Numbers, Refusal, Seq};
use std::alloc::Global;

/// Returns the header: state 0 is the start, `names` are the propositions, of which the `outputs` after the
/// `inputs` are controllable, and each run is accepted.
pub(crate) fn header(
    alloc: Global,
    names: Vec<ByteString>,
    inputs: usize,
    outputs: usize,
    states: usize,
) -> Result<Vec<RawItem>, Refusal>
    requires names { length names.items ≤ most_propositions }
    requires few { inputs + outputs ≤ most_propositions }
    requires states { states ≤ most_states }
    ensures { IfOk result (λ items. items.items ≡ header_of names.items inputs states outputs) }
{
    let count = names.len() as u32;
    let mut items = Vec::new(alloc);
    items.push(RawItem::States(states as u32))?;
    items.push(RawItem::Start(Numbers::one(0)))?;
    items.push(RawItem::Propositions {
        count,
        names: Seq::from_vec(names),
    })?;
    items.push(RawItem::AccName(buchi_name(alloc, 0)?))?;
    items.push(RawItem::Acceptance {
        count: 0,
        formula: buchi_formula(alloc, 0)?,
    })?;
    items.push(controllable_item(alloc, inputs as u32, outputs as u32)?)?;
    Ok(items)
}

/// Returns the item that says which propositions are controllable: `count` of them from `first` on.
fn controllable_item(alloc: Global, first: u32, count: u32) -> Result<RawItem, Refusal>
    requires { first + count ≤ most_propositions }
    ensures { IfOk result (λ made. made
        ≡ item.Unknown (codes "controllable-AP") (map Number (range_with_len first count))) }
{
    let mut values = Vec::new(alloc);
    for k in 0..count {
        values.push(HeaderValue::Number(first + k))?;
    }
    Ok(RawItem::Unknown {
        name: ByteString::from_slice(alloc, b"controllable-AP")?,
        values: Seq::from_vec(values),
    })
}
