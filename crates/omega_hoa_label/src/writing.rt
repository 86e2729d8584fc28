//! Labels in their canonical text.

ghost use Rattle.std.specs.Prelude.{◌≡◌, ◌++◌, [], IfErr, OnErr, OnOk};
ghost use Rattle.omega_text.specs.Cases.{IsMemory};
ghost use Rattle.omega_hoa_expression.specs.Texts.{whole_text};
ghost use Rattle.omega_hoa_label.specs.Postfix.{postfix};
ghost use Rattle.omega_hoa_label.specs.Writing.{label_text};
ghost use Rattle.omega_hoa_label.specs.private.layout.Texts.{texts_after};

use crate::codes::ROOM;
use crate::label::{Label, LabelNode};
use omega_hoa_expression::Backward;
use omega_text::Refusal;

/// Appends the canonical text of `label`: no spaces, and parentheses only if an operator needs them. After
/// [Refusal::Memory] the vector is as before.
pub fn write_label(label: &Label, out: &mut Vec<u8>) -> Result<(), Refusal>
    ensures ok { OnOk result (out.new.items ≡ out.old.items ++ (label_text label.now).bytes) }
    ensures same { OnErr result (out.new.items ≡ out.old.items) }
    ensures err { IfErr result IsMemory }
{
    let alloc = *out.allocator();
    let mut text = Backward::new(alloc);
    put_label(&mut text, label)?;
    text.append_to(out)?;
    Ok(())
}

/// Writes `label` before the text so far.
fn put_label(text: &mut Backward, label: &Label) -> Result<(), Refusal>
    ensures ok { OnOk result
        (whole_text text.new [] ≡ whole_text text.old (texts_after [] (postfix label.now))) }
    ensures err { IfErr result IsMemory }
{
    let mut room = ROOM;
    put_nodes(text, label.nodes(&mut room))
}

/// Writes the nodes of a label before the text so far.
fn put_nodes(text: &mut Backward, nodes: &[LabelNode]) -> Result<(), Refusal>
    ensures ok { OnOk result
        (whole_text text.new [] ≡ whole_text text.old (texts_after [] nodes.now)) }
    ensures err { IfErr result IsMemory }
{
    let mut left = nodes;
    while let Some((node, before)) = left.split_last() {
        left = before;
        match node {
            LabelNode::Constant(value) => text.truth(*value)?,
            LabelNode::Proposition(number) => text.number(*number)?,
            LabelNode::Not => text.negate()?,
            LabelNode::And => text.and()?,
            LabelNode::Or => text.or()?,
            LabelNode::Alias(_) => {}
            LabelNode::Group => {}
        }
    }
    Ok(())
}
