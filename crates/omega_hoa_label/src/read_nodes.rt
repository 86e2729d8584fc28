ghost use Rattle.std.specs.Prelude.{◌≡◌, ◌≤◌, ◌++◌, ◌∷◌, [], length, map, IfErr, IfOk, OnOk};
ghost use Rattle.omega_text.specs.Cases.{IsMemory};
ghost use Rattle.omega_hoa_label.specs.private.layout.Codes.{node_of};

use crate::codes::{ROOM, code, unpack};
use crate::label::LabelNode;
use omega_text::Refusal;
use std::alloc::Global;
use std::marker::Model;

/// The nodes of a label that is read, parts before their operators. Contracts see the list of nodes.
///
/// Up to 21 nodes take no memory, a byte each, if none is an alias and the propositions are below 250.
#[derive(Drop)]
pub struct ReadNodes {
    /// The first `count` of these stand for the nodes, unless they are in an allocation.
    pub(crate) codes: [u8; 21],
    pub(crate) count: u8,
    pub(crate) is_long: bool,
    /// The nodes, if they are in an allocation.
    pub(crate) long: Vec<LabelNode>,
}

impl Model for ReadNodes {
    ghost use Rattle.std.specs.Prelude.{List, ◌≤◌};
    ghost use Rattle.omega_hoa_label.specs.declared.label.LabelNode.{LabelNode};
    ghost use Rattle.omega_hoa_label.specs.private.layout.ReadNodes.{nodes_in};

    ghost Value = { List LabelNode };

    ghost view = { λ n. nodes_in n.is_long n.count n.codes n.long.items };

    ghost invariant = { λ n. n.count ≤ 21 };
}

impl ReadNodes {
    /// Makes an empty list of nodes, which takes no memory.
    pub fn new(alloc: Global) -> ReadNodes
        ensures { result ≡ [] }
    {
        ReadNodes {
            codes: [0; 21],
            count: 0,
            is_long: false,
            long: Vec::new(alloc),
        }
    }

    /// Appends `node`.
    #[inline(always)]
    pub fn push(&mut self, node: LabelNode) -> Result<(), Refusal>
        ensures ok { OnOk result (self.new ≡ self.old ++ node ∷ []) }
        ensures err { IfErr result IsMemory }
    {
        if !self.is_long && self.count < 21 {
            if let Some(code) = code(node) {
                self.codes[self.count as usize] = code;
                self.count += 1;
                return Ok(());
            }
        }
        self.push_long(node)
    }

    /// Appends `node` in an allocation.
    #[inline(never)]
    fn push_long(&mut self, node: LabelNode) -> Result<(), Refusal>
        ensures ok { OnOk result (self.new ≡ self.old ++ node ∷ []) }
        ensures err { IfErr result IsMemory }
    {
        if !self.is_long {
            let alloc = *self.long.allocator();
            self.long = unpacked_nodes(alloc, &self.codes[..self.count as usize])?;
            self.is_long = true;
        }
        self.long.push(node)?;
        Ok(())
    }
}

/// Returns the nodes of `codes`, with room for one more: most labels with an alias are that alone.
pub(crate) fn unpacked_nodes(alloc: Global, codes: &[u8]) -> Result<Vec<LabelNode>, Refusal>
    requires { length codes.now ≤ 21 }
    ensures nodes { IfOk result (λ nodes. nodes.items ≡ map node_of codes.now) }
    ensures memory { IfErr result IsMemory }
{
    let mut room = ROOM;
    let count = unpack(codes, &mut room);
    let mut nodes = Vec::with_capacity(alloc, codes.len() + 1)?;
    nodes.extend_from_slice(&room[..count])?;
    Ok(nodes)
}
