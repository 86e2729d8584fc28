ghost use Rattle.std.specs.Prelude.{◌≡◌, ◌++◌, IfOk, IsOkUnless, OnOk};
ghost use Rattle.omega_lang_lasso_text.specs.Written.{lasso_text, numbers_text};

use omega_text::{Refusal, write_number};
use std::alloc::Global;

/// Returns the text of a lasso: the lines of its `stem` and of its `cycle`, by the numbers of their edges.
///
/// If it has at most `MOST_TEXT` bytes and no number is above `MOST_NUMBER`, it is read back to the same lasso, by
/// `laws::written_lassos_are_read`.
pub fn write_lasso(alloc: Global, stem: &[u32], cycle: &[u32]) -> Result<Vec<u8>, Refusal>
    ensures text { IfOk result (λ text. text.items ≡ lasso_text stem.now cycle.now) }
    ensures memory { IsOkUnless result Refusal.Memory }
{
    let mut out = Vec::new(alloc);
    out.extend_from_slice(b"stem")?;
    append_numbers(stem, &mut out)?;
    out.extend_from_slice(b"\ncycle")?;
    append_numbers(cycle, &mut out)?;
    out.extend_from_slice(b"\n")?;
    Ok(out)
}

/// Appends `numbers`, those of the edges of a stem or of a cycle, a space before each.
pub fn append_numbers(numbers: &[u32], out: &mut Vec<u8>) -> Result<(), Refusal>
    ensures text { OnOk result (out.new.items ≡ out.old.items ++ numbers_text numbers.now) }
    ensures memory { IsOkUnless result Refusal.Memory }
{
    for number in numbers {
        out.extend_from_slice(b" ")?;
        write_number(u128::from(*number), out)?;
    }
    Ok(())
}
