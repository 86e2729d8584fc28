ghost use Rattle.std.specs.Prelude.{◌≢◌, false, IfErr, OnOk};
ghost use Rattle.omega_text.specs.declared.refusal.Refusal.TheVariants.{Memory};
ghost use Rattle.omega_hoa.specs.private.dividing.Ending.{EndsOpen, EndsRefused, EndsWhole, IsLast};

use omega_text::{Refusal, Settled, TextFault};

/// Ends the bytes outside segments. A token that `settled` has is refused with [TextFault::Syntax], since `HOA:` is
/// settled before; then comes the fault of tokens.
pub(crate) fn end_outside(settled: Settled) -> Result<(), Refusal>
    requires { IsLast settled }
    ensures ok { OnOk result (EndsWhole settled false) }
    ensures refused { IfErr result (EndsRefused settled false) }
    ensures memory { IfErr result (λ refusal. refusal ≢ Memory) }
{
    match settled.first {
        Some(token) => Err(Refusal::Text(TextFault::Syntax {
            at: token.span.start,
        })),
        None => match settled.fault {
            Some(fault) => Err(Refusal::Text(fault)),
            None => Ok(()),
        },
    }
}

/// Returns the refusal of `count` bytes that end inside a segment: the fault of tokens, or [TextFault::Syntax] at their
/// end. The marks that end a segment are settled before.
pub(crate) fn end_inside(settled: Settled, count: usize) -> Refusal
    requires { IsLast settled }
    ensures refused { EndsOpen settled count result }
    ensures memory { result ≢ Memory }
{
    match settled.fault {
        Some(fault) => Refusal::Text(fault),
        None => Refusal::Text(TextFault::Syntax { at: count }),
    }
}
