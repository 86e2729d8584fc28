//! Names of propositions as they are drawn.

ghost use Rattle.std.specs.Prelude.{◌≡◌, ◌++◌, IsOkUnless, OnOk};
ghost use Rattle.omega_hoa_dot.specs.Names.{drawn_name, is_constant as is_name_of_constant, name_at};

use omega_hoa_edges::is_identifier;
use omega_text::{ByteString, Refusal, write_escaped};

/// Appends the name of the proposition with this `number`, or empty quotes without one. An automaton has a name for
/// each number in its labels.
pub(crate) fn write_name_at(
    names: &[ByteString],
    number: usize,
    out: &mut Vec<u8>,
) -> Result<(), Refusal>
    ensures ok { OnOk result (out.new.items ≡ out.old.items ++ drawn_name (name_at names.now number)) }
    ensures memory { IsOkUnless result Refusal.Memory }
{
    match names.get(number) {
        Some(name) => write_name(name.as_slice(), out),
        None => write_name(&[], out),
    }
}

/// Appends `name`, in quotes if it is no identifier or could be taken for a constant.
fn write_name(name: &[u8], out: &mut Vec<u8>) -> Result<(), Refusal>
    ensures ok { OnOk result (out.new.items ≡ out.old.items ++ drawn_name name.now) }
    ensures memory { IsOkUnless result Refusal.Memory }
{
    if is_identifier(name) && !is_constant(name) {
        return write_escaped(name, out);
    }
    out.extend_from_slice(b"\\\"")?;
    write_escaped(name, out)?;
    out.extend_from_slice(b"\\\"")?;
    Ok(())
}

/// Whether `name` is that of a constant, `t` or `f`.
fn is_constant(name: &[u8]) -> bool
    ensures { result ≡ is_name_of_constant name.now }
{
    name == b"t".as_slice() || name == b"f".as_slice()
}
