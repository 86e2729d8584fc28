ghost use Rattle.std.specs.Prelude.{◌≡◌, ◌++◌, decimal, IsOkUnless, OnErr, OnOk};
ghost use Rattle.omega_text.specs.declared.refusal.Refusal.{Refusal};

use crate::refusal::Refusal;
use itoa::Buffer;

/// Appends `n` in decimal. After [Refusal::Memory] the vector is as it was.
#[inline(always)]
pub fn write_number(n: u128, out: &mut Vec<u8>) -> Result<(), Refusal>
    ensures ok { OnOk result (out.new.items ≡ out.old.items ++ decimal n) }
    ensures err { OnErr result (out.new.items ≡ out.old.items) }
    ensures only_memory { IsOkUnless result Refusal.Memory }
{
    // One digit, as owners and most priorities have, needs no buffer.
    if n < 10 {
        out.push(b'0' + n as u8)?;
        Ok(())
    } else {
        write_digits(n, out)
    }
}

/// Appends `n` in decimal by a buffer, as `write_number` does.
fn write_digits(n: u128, out: &mut Vec<u8>) -> Result<(), Refusal>
    ensures ok { OnOk result (out.new.items ≡ out.old.items ++ decimal n) }
    ensures err { OnErr result (out.new.items ≡ out.old.items) }
    ensures only_memory { IsOkUnless result Refusal.Memory }
{
    let mut buffer = Buffer::new();
    // Nearly every number has at most 64 bits, which are written in fewer steps.
    let text = match u64::try_from(n) {
        Ok(short) => buffer.format(short),
        Err(_) => buffer.format(n),
    };
    out.extend_from_slice(text.as_bytes())?;
    Ok(())
}
