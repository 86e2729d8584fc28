//! Acceptance formulas in their canonical text.

ghost use Rattle.std.specs.Prelude.{◌≡◌, ◌++◌, [], IfErr, OnErr, OnOk};
ghost use Rattle.omega_text.specs.Cases.{IsMemory};
ghost use Rattle.omega_hoa_expression.specs.Texts.{whole_text};
ghost use Rattle.omega_hoa_acceptance.specs.Writing.{acc_text};
ghost use Rattle.omega_hoa_acceptance.specs.private.layout.Texts.{acc_texts_after};

use crate::formula::{Acc, AccNode};
use omega_hoa_expression::Backward;
use omega_text::Refusal;

/// Appends the canonical text of `formula`: no spaces, and parentheses only if an operator needs them. After
/// [Refusal::Memory] the vector is as before.
pub fn write_acc(formula: &Acc, out: &mut Vec<u8>) -> Result<(), Refusal>
    ensures ok { OnOk result (out.new.items ≡ out.old.items ++ (acc_text formula.now).bytes) }
    ensures same { OnErr result (out.new.items ≡ out.old.items) }
    ensures err { IfErr result IsMemory }
{
    let alloc = *out.allocator();
    let mut text = Backward::new(alloc);
    put_formula(&mut text, formula.nodes())?;
    text.append_to(out)?;
    Ok(())
}

/// Writes the nodes of a formula before the text so far.
fn put_formula(text: &mut Backward, nodes: &[AccNode]) -> Result<(), Refusal>
    ensures ok { OnOk result
        (whole_text text.new [] ≡ whole_text text.old (acc_texts_after [] nodes.now)) }
    ensures err { IfErr result IsMemory }
{
    let mut left = nodes;
    while let Some((node, before)) = left.split_last() {
        left = before;
        match node {
            AccNode::Constant(value) => text.truth(*value)?,
            AccNode::Inf(negated, set) => text.set(b"Inf".as_slice(), *negated, *set)?,
            AccNode::Fin(negated, set) => text.set(b"Fin".as_slice(), *negated, *set)?,
            AccNode::And => text.and()?,
            AccNode::Or => text.or()?,
        }
    }
    Ok(())
}
