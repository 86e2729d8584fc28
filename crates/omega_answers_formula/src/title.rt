//! The name of the automaton of a formula.
ghost use Rattle.std.specs.Prelude.{◌≡◌, ◌++◌, IfOk, IsOkUnless, OnOk};
ghost use Rattle.omega_ltl_formula.specs.Table.{tree_of};
ghost use Rattle.omega_ltl_text.specs.Written.{is_binary};
ghost use Rattle.omega_answers_formula.specs.Title.{string_byte, string_of, title_of};

use omega_ltl_formula::{Formula, FormulaNode, nodes_are_over_nodes};
use omega_ltl_text::write_formula;
use omega_text::Refusal;
use std::alloc::Global;

/// Returns the canonical text of `formula`, or of its negation, as a string of the Hanoi format has it between its
/// quotes: with a backslash before each quote and each backslash.
pub(crate) fn title(alloc: Global, formula: &Formula, negated: bool) -> Result<Vec<u8>, Refusal>
    ensures title { IfOk result (λ title. title.items ≡ title_of negated (tree_of formula.now)) }
    ensures memory { IsOkUnless result Refusal.Memory }
{
    let text = write_formula(alloc, formula)?;
    let within = negated && is_binary(formula);
    let mut out = Vec::new(alloc);
    if negated {
        out.push(b'!')?;
    }
    if within {
        out.push(b'(')?;
    }
    append_string(text.as_slice(), &mut out)?;
    if within {
        out.push(b')')?;
    }
    Ok(out)
}

/// Whether `formula` has two operands.
fn is_binary(formula: &Formula) -> bool
    ensures { result ≡ is_binary (tree_of formula.now) }
{
    nodes_are_over_nodes();
    formula.keeps_limits();
    matches!(
        formula.nodes()[formula.root()],
        FormulaNode::Binary(_, _, _)
    )
}

/// Appends `bytes` with a backslash before each quote and each backslash.
fn append_string(bytes: &[u8], out: &mut Vec<u8>) -> Result<(), Refusal>
    ensures string { OnOk result (out.new.items ≡ out.old.items ++ string_of bytes.now) }
    ensures memory { IsOkUnless result Refusal.Memory }
{
    for byte in bytes {
        append_byte(*byte, out)?;
    }
    Ok(())
}

/// Appends `byte`, with a backslash before it if it is a quote or a backslash.
fn append_byte(byte: u8, out: &mut Vec<u8>) -> Result<(), Refusal>
    ensures string { OnOk result (out.new.items ≡ out.old.items ++ string_byte byte) }
    ensures memory { IsOkUnless result Refusal.Memory }
{
    if byte == b'"' || byte == b'\\' {
        out.push(b'\\')?;
    }
    out.push(byte)?;
    Ok(())
}
