ghost use Rattle.std.specs.Prelude.{◌≡◌, ◌+◌, ◌-◌, ◌*◌, ◌<◌, ◌≤◌, ◌^◌, length, IfOk, IsOkUnless};
ghost use Rattle.omega_measure.specs.private.layout.Field.{ArePacked, FollowsField, last_field, top_field};

use crate::field::Field;
use omega_game_values::Refusal;
use std::alloc::Global;

/// Lays out the fields of a row: the flag for top, and then an entry for each of `limits`.
pub(crate) fn fields_of(alloc: Global, limits: &[u32]) -> Result<Vec<Field>, Refusal>
    requires few { length limits.now < 2 ^ 32 - 1 }
    ensures packed { IfOk result (λ fields. ArePacked limits.now fields.items) }
    ensures words { IfOk result (λ fields. (last_field fields.items).word ≤ length limits.now) }
    ensures memory { IsOkUnless result Refusal.Memory }
{
    let mut fields = Vec::with_capacity(alloc, limits.len())?;
    let mut last = top();
    fields.push(last)?;
    for limit in limits {
        last = next(last, *limit);
        fields.push(last)?;
    }
    Ok(fields)
}

/// Returns the field of the flag for top.
fn top() -> Field
    ensures { result ≡ top_field }
{
    Field {
        word: 0,
        shift: 63,
        bits: 1,
        limit: 1,
    }
}

/// Returns the field after `before` for an entry up to `limit`: in the same word if it has room, else first in the next
/// word.
fn next(before: Field, limit: u32) -> Field
    requires room { before.shift < 64 }
    requires word { before.word < 2 ^ 32 - 1 }
    ensures follows { FollowsField before limit result }
    ensures word { result.word ≤ before.word + 1 }
    ensures room { result.bits ≤ before.shift
        → (result.word ≡ before.word) × (result.shift + result.bits ≡ before.shift) }
    ensures full { before.shift < result.bits
        → (result.word ≡ before.word + 1) × (result.shift + result.bits ≡ 64) }
{
    let bits = 32 - limit.leading_zeros();
    if bits <= before.shift {
        Field {
            word: before.word,
            shift: before.shift - bits,
            bits,
            limit,
        }
    } else {
        Field {
            word: before.word + 1,
            shift: 64 - bits,
            bits,
            limit,
        }
    }
}
