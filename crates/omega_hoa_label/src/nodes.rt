ghost use Rattle.std.specs.Prelude.{◌≡◌, ◌∷◌, ◌++◌, [], IfErr, OnOk};
ghost use Rattle.omega_text.specs.Cases.{IsMemory};
ghost use Rattle.omega_hoa_label.specs.Postfix.{postfix};

use crate::codes::ROOM;
use crate::label::{Label, LabelNode};
use omega_text::Refusal;
use smallvec::SmallVec;
use std::alloc::Global;
use std::marker::Model;

/// The nodes of a label that is put together, parts before their operators. Contracts see the list of nodes.
///
/// Up to 24 nodes take no memory.
pub struct LabelNodes {
    items: SmallVec<LabelNode, 24>,
}

impl Drop for LabelNodes {
    fn drop(self) {
        let LabelNodes { items: _ } = self;
    }
}

impl Model for LabelNodes {
    ghost use Rattle.std.specs.Prelude.{List};
    ghost use Rattle.omega_hoa_label.specs.declared.label.LabelNode.{LabelNode};

    ghost Value = { List LabelNode };

    ghost view = { λ n. n.items.items };
}

impl LabelNodes {
    /// Makes an empty list of nodes, which takes no memory.
    pub fn new(alloc: Global) -> LabelNodes
        ensures { result ≡ [] }
    {
        LabelNodes {
            items: SmallVec::new(alloc),
        }
    }

    /// Appends `node`.
    pub fn push(&mut self, node: LabelNode) -> Result<(), Refusal>
        ensures ok { OnOk result (self.new ≡ self.old ++ node ∷ []) }
        ensures err { IfErr result IsMemory }
    {
        self.items.push(node)?;
        Ok(())
    }

    /// Appends the nodes of `label`. Linear in it.
    pub fn append(&mut self, label: &Label) -> Result<(), Refusal>
        ensures ok { OnOk result (self.new ≡ self.old ++ postfix label.now) }
        ensures err { IfErr result IsMemory }
    {
        let mut room = ROOM;
        self.items.extend_from_slice(label.nodes(&mut room))?;
        Ok(())
    }

    /// Returns the nodes.
    pub fn as_slice(&self) -> &[LabelNode]
        ensures { result.now ≡ self.now }
    {
        self.items.as_slice()
    }
}
