//! Valuations of edges without labels.

ghost use Rattle.std.specs.Prelude.{◌≡◌, ◌++◌, IsOkUnless, OnOk, length};
ghost use Rattle.omega_hoa_dot.specs.Expressions.{named_text};
ghost use Rattle.omega_hoa_edges.specs.Labels.{literal, valuation_label};

use crate::names::write_name_at;
use omega_hoa_edges::has_bit;
use omega_text::{ByteString, Refusal};

/// Appends the label of the valuation of `index` over all propositions.
pub(crate) fn write_valuation(
    names: &[ByteString],
    index: usize,
    out: &mut Vec<u8>,
) -> Result<(), Refusal>
    ensures ok { OnOk result (out.new.items
        ≡ out.old.items ++ named_text names.now (valuation_label index (length names.now))) }
    ensures memory { IsOkUnless result Refusal.Memory }
{
    if names.is_empty() {
        out.push(b't')?;
        return Ok(());
    }
    write_literal(names, index, 0, out)?;
    for p in 1..names.len() {
        out.extend_from_slice(b" & ")?;
        write_literal(names, index, p, out)?;
    }
    Ok(())
}

/// Appends the proposition `p` if it holds in the valuation of `index`, else its negation.
fn write_literal(
    names: &[ByteString],
    index: usize,
    p: usize,
    out: &mut Vec<u8>,
) -> Result<(), Refusal>
    ensures ok { OnOk result
        (out.new.items ≡ out.old.items ++ named_text names.now (literal index p)) }
    ensures memory { IsOkUnless result Refusal.Memory }
{
    if !has_bit(index, p) {
        out.push(b'!')?;
    }
    write_name_at(names, p, out)
}
