ghost use Rattle.std.specs.Prelude.{◌≡◌, ◌++◌, OnOk, OnErr, IsOkUnless};
ghost use Rattle.std.specs.Io.{StartsWith};
ghost use Rattle.omega_io.specs.RefusalLine.{line_of, place_text};

use omega_text::{Refusal, write_number};

/// Appends the line that the program prints for `refusal`: its number and name, the place of a `TextFault` that has
/// one, and the state of [TaskFault::NotDeterministic]. If memory is refused, nothing is appended.
pub fn refusal_line(refusal: &Refusal, out: &mut Vec<u8>) -> Result<(), Refusal>
    ensures ok { OnOk result (out.new.items ≡ out.old.items ++ line_of refusal.now) }
    ensures err { OnErr result (out.new.items ≡ out.old.items) }
    ensures memory { IsOkUnless result Refusal.Memory }
{
    let before = out.len();
    match append_line(*refusal, out) {
        Ok(()) => Ok(()),
        Err(wanting) => {
            out.truncate(before);
            Err(wanting)
        }
    }
}

/// Appends that line, or a beginning of it if memory is refused.
fn append_line(refusal: Refusal, out: &mut Vec<u8>) -> Result<(), Refusal>
    ensures ok { OnOk result (out.new.items ≡ out.old.items ++ line_of refusal) }
    ensures kept { StartsWith out.new.items out.old.items }
    ensures memory { IsOkUnless result Refusal.Memory }
{
    out.extend_from_slice(b"omega: ")?;
    write_number(u128::from(refusal.number()), out)?;
    out.extend_from_slice(b" ")?;
    out.extend_from_slice(refusal.name().as_bytes())?;
    append_place(refusal.at(), out)?;
    out.extend_from_slice(b"\n")?;
    Ok(())
}

/// Appends ` at ` and the `place`, if there is one.
fn append_place(place: Option<usize>, out: &mut Vec<u8>) -> Result<(), Refusal>
    ensures ok { OnOk result (out.new.items ≡ out.old.items ++ place_text place) }
    ensures kept { StartsWith out.new.items out.old.items }
    ensures memory { IsOkUnless result Refusal.Memory }
{
    let Some(at) = place else {
        return Ok(());
    };
    out.extend_from_slice(b" at ")?;
    write_number(at as u128, out)
}
