//! Numbers of edges and of pairs that come after others.

ghost use Rattle.std.specs.Prelude.{◌≡◌, ◌+◌, IfOk, IsOkUnless};

use omega_text::Refusal;

/// Returns the number that comes `count` numbers after `before`. Also fails with [Refusal::Memory] if it is over
/// 2^32 - 1.
///
/// The number of an edge is less, as an automaton has fewer edges. That of a pair may not be: all pairs that one pair
/// leads to are numbered before they are counted against `MOST_STATES`.
pub(crate) fn number_after(before: u32, count: usize) -> Result<u32, Refusal>
    ensures ok { IfOk result (λ number. number ≡ before + count) }
    ensures memory { IsOkUnless result Refusal.Memory }
{
    match u32::try_from(count) {
        Ok(count) => match before.checked_add(count) {
            Some(number) => Ok(number),
            None => Err(Refusal::Memory),
        },
        Err(_) => Err(Refusal::Memory),
    }
}
