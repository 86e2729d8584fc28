//! Depths of operands, as operators take them.

ghost use Rattle.std.specs.Prelude.{◌≡◌, true, IfNone, IfSome, reverse};
ghost use Rattle.omega_ltl_text.specs.private.Measuring.{binds_depth, capped, depth_joined, reduced_depth};
ghost use Rattle.omega_ltl_text.specs.private.Reader.{EndsWith, IsStopped};

use crate::levels::level;
use crate::waiting::Waiting;
use omega_ltl_formula::MOST_FORMULA_DEPTH;

/// Lets the last operators that wait take an operand of the depth `operand`, as long as they bind at least as tight as
/// `least`. Returns the depth of what it has become part of.
pub(crate) fn reduce_depth(waiting: &mut Vec<Waiting>, least: usize, operand: u16) -> u16
    ensures { reduced_depth least (reverse waiting.old.items) operand ≡ (reverse waiting.new.items, result) }
{
    let mut depth = operand;
    while let Some(last) = last_binding(waiting.as_slice(), least) {
        waiting.pop();
        depth = depth_joined(last, depth);
    }
    depth
}

/// Returns what waits last, if it binds at least as tight as `least`.
fn last_binding(waiting: &[Waiting], least: usize) -> Option<Waiting>
    ensures last { IfSome result (EndsWith waiting.now) }
    ensures binds { IfSome result (λ last. binds_depth least last ≡ true) }
    ensures stopped { IfNone result (IsStopped (binds_depth least) waiting.now) }
{
    let last = *waiting.last()?;
    let binds = match last {
        Waiting::Parenthesis => false,
        Waiting::Unary => true,
        Waiting::Binary(operator, _) => least <= level(operator),
    };
    if binds { Some(last) } else { None }
}

/// Returns the depth that `last` makes of the depth of its last operand.
fn depth_joined(last: Waiting, depth: u16) -> u16
    ensures { result ≡ depth_joined last depth }
{
    match last {
        Waiting::Parenthesis => depth,
        Waiting::Unary => capped(depth as usize + 1),
        Waiting::Binary(_, left) => capped(left.max(depth) as usize + 1),
    }
}

/// Returns a depth as it is counted: no further than just past the limit.
fn capped(depth: usize) -> u16
    ensures { result ≡ capped depth }
{
    depth.min(MOST_FORMULA_DEPTH + 1) as u16
}
