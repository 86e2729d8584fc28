//! The formula that a text says.

ghost use Rattle.std.specs.Prelude.{◌≡◌, ◌≤◌, IfErr, IfOk, length};
ghost use Rattle.omega_ltl_formula.specs.Building.{names_of};
ghost use Rattle.omega_ltl_formula.specs.Formula.{formula_size};
ghost use Rattle.omega_ltl_formula.specs.Table.{tree_of};
ghost use Rattle.omega_ltl_text.specs.Text.{IsFormulaText, IsReadFormulaRefusal};

use crate::kind::FormulaKind;
use crate::measurer::FormulaMeasurer;
use crate::reader::FormulaReader;
use omega_ltl_formula::Formula;
use omega_text::{Refusal, read_text};
use std::alloc::Global;

/// Returns the formula that the text `bytes` says, in Spot's syntax of linear temporal logic (tl.pdf).
///
/// From loosest to tightest: `->` and `<->`, to the right; `|`, `xor` and `&`, to the left; `U`, `R`, `W` and `M`, to
/// the right; `!`, `X`, `F` and `G`, before their operand. Other spellings are `=>`, `<=>`, `||`, `\/`, `^`, `&&`,
/// `/\`, `V` for `R`, `~` for `!`, and `()`, `<>` and `[]` for `X`, `F` and `G`. Constants are `1`, `0`, and `true` and
/// `false` in letters of either case.
///
/// A name is a word, or anything in quotes, as in the Hanoi format. `F`, `G` or `X` that no digit follows is an
/// operator wherever a name could begin, so `GFa` is `G F a`. The names are numbered in the order of their first
/// occurrences. The formula has at most as many nodes as atoms and operators, since equal parts become one.
///
/// The bytes are read twice, from the left, in linear time and without recursion. The first time measures the formula,
/// so that no node of a formula past a limit of depth or size is made.
///
/// Fails with [TextFault::TooLong] above `MOST_TEXT` bytes. Otherwise fails with [TextFault::Lex] at the least place at
/// which no token begins, or else with [TextFault::Syntax] at the first token with which no formula goes on, or at the
/// length of the text if it ends too early. Otherwise fails with [AutomatonFault::TooDeep] if the formula is over 256
/// deep, or else with [TaskFault::TooLarge] if it has over 4,096 atoms and operators or over 64 names.
pub fn read_formula(alloc: Global, bytes: &[u8]) -> Result<Formula, Refusal>
    ensures formula { IfOk result (λ formula. IsFormulaText bytes.now (tree_of formula)) }
    ensures names { IfOk result (λ formula. formula.table.names ≡ names_of (tree_of formula)) }
    ensures nodes { IfOk result (λ formula. length formula.table.nodes ≤ formula_size (tree_of formula)) }
    ensures refused { IfErr result (IsReadFormulaRefusal bytes.now) }
{
    check_measure(alloc, bytes)?;
    let reader = read_text::<FormulaKind, FormulaReader>(FormulaReader::new(alloc), bytes)?;
    reader.finish(alloc)
}

/// Refuses a text that says no formula, or one past the limit of depth or else past that of size.
fn check_measure(alloc: Global, bytes: &[u8]) -> Result<(), Refusal>
    ensures { IfErr result (IsReadFormulaRefusal bytes.now) }
{
    let measurer = read_text::<FormulaKind, FormulaMeasurer>(FormulaMeasurer::new(alloc), bytes)?;
    measurer.check_limits()
}
