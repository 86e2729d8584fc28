//! Encoding of a label as steps, in negation normal form.

ghost use Rattle.std.specs.Prelude.{◌≡◌, true, IfOk, IsOkUnless, OnOk};
ghost use Rattle.omega_hoa_label.specs.Label.{constant, proposition as proposition_tree};
ghost use Rattle.omega_hoa_satisfiable.specs.private.Encoding.{AreExits, IsEncoded};
ghost use Rattle.omega_hoa_satisfiable.specs.private.Leading.{ArePlanned, IsKept, is_as};

use crate::exits::Exits;
use crate::left_parts::LeftParts;
use crate::part::LabelPart;
use crate::steps::{Literal, Step, add};
use omega_hoa_label::{Label, LabelNode, ROOM};
use omega_text::Refusal;

/// Appends the steps of `label` from the last to the first, and returns the place of the first.
///
/// Takes the nodes of the label from the last to the first, without recursion: the right part of an operator is encoded
/// before the left one, whose exits need its place.
pub(crate) fn append_label(
    label: &Label,
    exits: Exits,
    steps: &mut Vec<Step>,
) -> Result<usize, Refusal>
    requires planned { ArePlanned steps.old.items }
    requires exits { AreExits steps.old.items exits }
    ensures ok { IfOk result (IsEncoded steps.old.items steps.new.items label.now true exits) }
    ensures planned { OnOk result (ArePlanned steps.new.items) }
    ensures memory { IsOkUnless result Refusal.Memory }
{
    let mut waiting = LeftParts::new(*steps.allocator());
    let mut part = LabelPart {
        wanted: true,
        exits,
    };
    let mut place = exits.otherwise;
    let mut room = ROOM;
    let mut left = label.nodes(&mut room);
    while let Some((node, before)) = left.split_last() {
        left = before;
        match node {
            LabelNode::Constant(value) => {
                place = append_constant(*value, part, steps)?;
                part = waiting.take(part, place);
            }
            LabelNode::Proposition(number) => {
                place = append_literal(*number, part, steps)?;
                part = waiting.take(part, place);
            }
            LabelNode::Not => part = part.negation(),
            LabelNode::And => part = waiting.join(part.wanted, part)?,
            LabelNode::Or => part = waiting.join(!part.wanted, part)?,
            LabelNode::Alias(_) => {}
            LabelNode::Group => {}
        }
    }
    Ok(place)
}

/// Appends the step of a constant as `part`, and returns its place. Returns the place of its other exit if the constant
/// is not the wanted one.
fn append_constant(value: bool, part: LabelPart, steps: &mut Vec<Step>) -> Result<usize, Refusal>
    requires planned { ArePlanned steps.old.items }
    requires exits { AreExits steps.old.items part.exits }
    ensures ok { IfOk result
        (IsEncoded steps.old.items steps.new.items (constant value) part.wanted part.exits) }
    ensures kept { OnOk result (IsKept steps.old.items steps.new.items) }
    ensures planned { OnOk result (ArePlanned steps.new.items) }
    ensures memory { IsOkUnless result Refusal.Memory }
{
    let exits = part.exits;
    if is_as(part.wanted, value) {
        add(Step::Either(exits.after, exits.otherwise), steps)
    } else {
        Ok(exits.otherwise)
    }
}

/// Appends the step of the literal of `proposition` as `part`, and returns its place.
fn append_literal(
    proposition: u32,
    part: LabelPart,
    steps: &mut Vec<Step>,
) -> Result<usize, Refusal>
    requires planned { ArePlanned steps.old.items }
    requires exits { AreExits steps.old.items part.exits }
    ensures ok { IfOk result (IsEncoded steps.old.items steps.new.items
        (proposition_tree proposition) part.wanted part.exits) }
    ensures kept { OnOk result (IsKept steps.old.items steps.new.items) }
    ensures planned { OnOk result (ArePlanned steps.new.items) }
    ensures memory { IsOkUnless result Refusal.Memory }
{
    let literal = Literal {
        proposition,
        sign: part.wanted,
        next: part.exits.after,
        otherwise: part.exits.otherwise,
        whole: part.exits.whole,
    };
    add(Step::Try(literal), steps)
}

/// Whether `value` is the `wanted` one.
fn is_as(wanted: bool, value: bool) -> bool
    ensures { result ≡ is_as wanted value }
{
    if wanted { value } else { !value }
}
