ghost use Rattle.std.specs.Prelude.{◌≡◌, ◌++◌, IsOkUnless, OnOk, decimal};

use omega_text::{Refusal, write_number};

/// Appends `name`, with the signs around it, and the `number`. If a request for memory is refused, part of them may be
/// appended.
pub fn append_numbered(name: &[u8], number: u128, out: &mut Vec<u8>) -> Result<(), Refusal>
    ensures text { OnOk result (out.new.items ≡ out.old.items ++ (name.now ++ decimal number)) }
    ensures memory { IsOkUnless result Refusal.Memory }
{
    out.extend_from_slice(name)?;
    write_number(number, out)
}
