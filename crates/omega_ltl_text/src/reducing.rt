//! Operators take their last operands.

ghost use Rattle.std.specs.Prelude.{◌≡◌, ◌<◌, ◌≤◌, true, Some, IfNone, IfOk, IfSome, IsOkUnless, length};
ghost use Rattle.std.specs.List.{AllByRecursion};
ghost use Rattle.omega_ltl_formula.specs.Building.{Adds};
ghost use Rattle.omega_ltl_formula.specs.Table.{tree_at};
ghost use Rattle.omega_ltl_text.specs.private.Reader.{EndsWith, IsAmong, IsReading, IsStopped, Reduces};
ghost use Rattle.omega_ltl_text.specs.private.Reader.{binds};
ghost use Rattle.omega_ltl_text.specs.private.Reader.{joined, reader_of};

use crate::levels::level;
use crate::pending::Pending;
use omega_ltl_formula::FormulaBuilder;
use omega_text::Refusal;

/// Lets the last pending operators take the node `operand`, as long as they bind at least as tight as `least`. Returns
/// the node that it has become part of.
pub(crate) fn reduce(
    table: &mut FormulaBuilder,
    pending: &mut Vec<Pending>,
    least: usize,
    operand: usize,
) -> Result<usize, Refusal>
    requires { IsReading (reader_of table.old pending.old.items (Some operand)) }
    ensures reduces { IfOk result
        (Reduces least (reader_of table.old pending.old.items (Some operand))
        table.new pending.new.items) }
    ensures waiting { AllByRecursion (IsAmong (length table.new.nodes)) pending.new.items }
    ensures longer { length table.old.nodes ≤ length table.new.nodes }
    ensures memory { IsOkUnless result Refusal.Memory }
{
    let mut tree = operand;
    while let Some(last) = last_binding(pending.as_slice(), least) {
        pending.pop();
        tree = join(table, last, tree)?;
    }
    Ok(tree)
}

/// Returns what is pending last, if it binds at least as tight as `least`.
fn last_binding(pending: &[Pending], least: usize) -> Option<Pending>
    ensures last { IfSome result (EndsWith pending.now) }
    ensures binds { IfSome result (λ last. binds least last ≡ true) }
    ensures stopped { IfNone result (IsStopped (binds least) pending.now) }
{
    let last = *pending.last()?;
    let binds = match last {
        Pending::Parenthesis => false,
        Pending::Unary(_) => true,
        Pending::Binary(operator, _) => least <= level(operator),
    };
    if binds { Some(last) } else { None }
}

/// Returns the node that `last` makes of its last operand `tree`.
fn join(table: &mut FormulaBuilder, last: Pending, tree: usize) -> Result<usize, Refusal>
    requires last { IsAmong (length table.old.nodes) last }
    requires tree { tree < length table.old.nodes }
    ensures adds { IfOk result
        (Adds table.old table.new (joined table.old last (tree_at table.old tree))) }
    ensures names { table.new.names ≡ table.old.names }
    ensures longer { length table.old.nodes ≤ length table.new.nodes }
    ensures memory { IsOkUnless result Refusal.Memory }
{
    match last {
        Pending::Parenthesis => Ok(tree),
        Pending::Unary(operator) => table.unary(operator, tree),
        Pending::Binary(operator, left) => table.binary(operator, left as usize, tree),
    }
}
