//! How tight operators bind, and to which side.

ghost use Rattle.std.specs.Prelude.{◌≡◌, ◌≤◌};
ghost use Rattle.omega_ltl_text.specs.Grammar.{groups_right, least_left, level};

use omega_ltl_formula::BinaryOperator;

/// Returns how tight `operator` binds, from 0 to 4.
pub(crate) fn level(operator: BinaryOperator) -> usize
    ensures level { result ≡ level operator }
    ensures most { result ≤ 4 }
{
    match operator {
        BinaryOperator::Implies | BinaryOperator::Iff => 0,
        BinaryOperator::Or => 1,
        BinaryOperator::Xor => 2,
        BinaryOperator::And => 3,
        BinaryOperator::Until
        | BinaryOperator::Release
        | BinaryOperator::WeakUntil
        | BinaryOperator::StrongRelease => 4,
    }
}

/// Whether `a op b op c` is `a op (b op c)`.
fn groups_right(operator: BinaryOperator) -> bool
    ensures { result ≡ groups_right operator }
{
    match operator {
        BinaryOperator::Or | BinaryOperator::Xor | BinaryOperator::And => false,
        BinaryOperator::Implies
        | BinaryOperator::Iff
        | BinaryOperator::Until
        | BinaryOperator::Release
        | BinaryOperator::WeakUntil
        | BinaryOperator::StrongRelease => true,
    }
}

/// Returns how tight the left operand of `operator` has to bind.
pub(crate) fn least_left(operator: BinaryOperator) -> usize
    ensures { result ≡ least_left operator }
{
    if groups_right(operator) {
        level(operator) + 1
    } else {
        level(operator)
    }
}
