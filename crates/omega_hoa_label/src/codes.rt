//! Nodes of labels as bytes.

ghost use Rattle.std.specs.Prelude.{◌≡◌, ◌≤◌, length, map, take};
ghost use Rattle.omega_hoa_label.specs.private.layout.Codes.{code_of, node_of};

use crate::label::LabelNode;

/// The codes of nodes other than propositions. A lower byte is the proposition of that number.
const FALSE: u8 = 250;

const TRUE: u8 = 251;

const NOT: u8 = 252;

const AND: u8 = 253;

const OR: u8 = 254;

const GROUP: u8 = 255;

/// The greatest number of nodes of a label that is kept in place.
pub const MOST_IN_PLACE: usize = 21;

/// Room for the nodes of a label that is kept in place.
pub const ROOM: [LabelNode; 21] = [LabelNode::And; 21];

/// Returns the byte of `node`. An alias has none, nor has a proposition from 250 on.
pub(crate) fn code(node: LabelNode) -> Option<u8>
    ensures { result ≡ code_of node }
{
    match node {
        LabelNode::Constant(false) => Some(FALSE),
        LabelNode::Constant(true) => Some(TRUE),
        LabelNode::Proposition(number) if number < FALSE as u32 => Some(number as u8),
        LabelNode::Proposition(_) | LabelNode::Alias(_) => None,
        LabelNode::Not => Some(NOT),
        LabelNode::And => Some(AND),
        LabelNode::Or => Some(OR),
        LabelNode::Group => Some(GROUP),
    }
}

/// Returns the node of the byte `code`.
pub(crate) fn node_of_code(code: u8) -> LabelNode
    ensures { result ≡ node_of code }
{
    match code {
        FALSE => LabelNode::Constant(false),
        TRUE => LabelNode::Constant(true),
        NOT => LabelNode::Not,
        AND => LabelNode::And,
        OR => LabelNode::Or,
        GROUP => LabelNode::Group,
        number => LabelNode::Proposition(number as u32),
    }
}

/// Decodes `codes` into the front of `room`, and returns their number.
pub(crate) fn unpack(codes: &[u8], room: &mut [LabelNode; 21]) -> usize
    requires { length codes.now ≤ 21 }
    ensures nodes { take (length codes.now) room.new ≡ map node_of codes.now }
    ensures count { result ≡ length codes.now }
{
    for (at, code) in codes.iter().enumerate() {
        room[at] = node_of_code(*code);
    }
    codes.len()
}
