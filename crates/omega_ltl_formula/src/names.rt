//! Names by their numbers.

ghost use Rattle.std.specs.Prelude.{◌≡◌, Some, IfOk, IsOkUnless, OnErr, OnOk, slice_get};
ghost use Rattle.omega_ltl_formula.specs.Building.{with_name};
ghost use Rattle.omega_ltl_formula.specs.private.Keys.{bytes_of};

use indexmap::IndexSet;
use omega_text::{ByteString, Refusal};
use std::alloc::Global;

/// Returns the number of `name` among `names`, to which a copy is added if it is not among them.
pub(crate) fn number_of_name(
    alloc: Global,
    names: &mut IndexSet<Vec<u8>>,
    name: &[u8],
) -> Result<usize, Refusal>
    ensures names { OnOk result (bytes_of names.new.keys ≡ with_name (bytes_of names.old.keys) name.now) }
    ensures number { IfOk result (λ number. slice_get (bytes_of names.new.keys) number ≡ Some name.now) }
    ensures err { OnErr result (bytes_of names.new.keys ≡ bytes_of names.old.keys) }
    ensures memory { IsOkUnless result Refusal.Memory }
{
    if let Some(number) = names.get_index_of(name) {
        return Ok(number);
    }
    let copy = Vec::from_slice(alloc, name)?;
    let (number, _) = names.insert_full(copy)?;
    Ok(number)
}

/// Copies `names`.
pub(crate) fn copy_of_names(alloc: Global, names: &[Vec<u8>]) -> Result<Vec<ByteString>, Refusal>
    ensures same { IfOk result (λ same. same.items ≡ bytes_of names.now) }
    ensures memory { IsOkUnless result Refusal.Memory }
{
    let mut same = Vec::with_capacity(alloc, names.len())?;
    for name in names {
        same.push(ByteString::from_slice(alloc, name.as_slice())?)?;
    }
    Ok(same)
}
