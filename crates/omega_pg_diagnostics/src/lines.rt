//! Lines with a number or two in them.

ghost use Rattle.std.specs.Prelude.{◌≡◌, ◌++◌, IfOk, IsOkUnless, decimal};

use omega_text::{Refusal, write_number};
use std::alloc::Global;

/// Returns `front`, the number and `back`.
pub(crate) fn with_number(
    alloc: Global,
    front: &[u8],
    number: u32,
    back: &[u8],
) -> Result<Vec<u8>, Refusal>
    ensures line { IfOk result (λ line. line.items ≡ front.now ++ (decimal number ++ back.now)) }
    ensures memory { IsOkUnless result Refusal.Memory }
{
    let mut line = Vec::new(alloc);
    line.extend_from_slice(front)?;
    write_number(u128::from(number), &mut line)?;
    line.extend_from_slice(back)?;
    Ok(line)
}

/// Returns `front`, the first number, `middle`, the second number and `back`.
pub(crate) fn with_two_numbers(
    alloc: Global,
    front: &[u8],
    first: u32,
    middle: &[u8],
    second: u32,
    back: &[u8],
) -> Result<Vec<u8>, Refusal>
    ensures line { IfOk result (λ line. line.items
        ≡ front.now ++ (decimal first ++ (middle.now ++ (decimal second ++ back.now)))) }
    ensures memory { IsOkUnless result Refusal.Memory }
{
    let mut line = with_number(alloc, front, first, middle)?;
    write_number(u128::from(second), &mut line)?;
    line.extend_from_slice(back)?;
    Ok(line)
}
