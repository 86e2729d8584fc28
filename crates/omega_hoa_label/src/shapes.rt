ghost use Rattle.std.specs.Prelude.{◌≡◌, ◌∷◌, [], IfErr, OnOk};
ghost use Rattle.omega_text.specs.Cases.{IsMemory};
ghost use Rattle.omega_hoa_label.specs.Label.{conjunction, disjunction, negation};
ghost use Rattle.omega_hoa_label.specs.Shape.{label_tree_of_shape};
ghost use Rattle.omega_hoa_label.specs.private.layout.Label.{below, top};

use crate::shape::LabelShape;
use omega_text::Refusal;
use std::alloc::Global;
use std::marker::Model;

/// A stack of labels as trees of boxes.
#[derive(Drop)]
pub(crate) struct LabelShapes {
    items: Vec<LabelShape>,
    alloc: Global,
}

impl Model for LabelShapes {
    ghost use Rattle.std.specs.Prelude.{List, map, reverse};
    ghost use Rattle.std.specs.Coded.{coded_list};
    ghost use Rattle.omega_hoa_label.specs.Shape.{label_tree_of_shape};
    ghost use Rattle.omega_hoa_label.specs.Label.{LabelTree};
    ghost use Rattle.omega_hoa_label.specs.private.layout.Label.{label_code};

    ghost Value = { List LabelTree };

    ghost coded = { coded_list label_code };

    ghost view = { λ s. map label_tree_of_shape (reverse s.items.items) };
}

impl LabelShapes {
    /// Makes an empty stack.
    pub(crate) fn new(alloc: Global) -> Self
        ensures { result ≡ [] }
    {
        LabelShapes {
            items: Vec::new(alloc),
            alloc,
        }
    }

    /// Pushes a label.
    pub(crate) fn push(&mut self, shape: LabelShape) -> Result<(), Refusal>
        ensures ok { OnOk result (self.new ≡ label_tree_of_shape shape ∷ self.old) }
        ensures err { IfErr result IsMemory }
    {
        self.items.push(shape)?;
        Ok(())
    }

    /// Pops the label on top, or returns a constant if the stack is empty.
    pub(crate) fn pop(&mut self) -> LabelShape
        ensures shape { label_tree_of_shape result ≡ top self.old }
        ensures rest { self.new ≡ below self.old }
    {
        match self.items.pop() {
            Some(shape) => shape,
            None => LabelShape::Constant(false),
        }
    }

    /// Puts `!` before the label on top.
    pub(crate) fn negate(&mut self) -> Result<(), Refusal>
        ensures ok { OnOk result (self.new ≡ negation (top self.old) ∷ below self.old) }
        ensures err { IfErr result IsMemory }
    {
        let part = self.pop();
        let part = Box::new(self.alloc, part)?;
        self.push(LabelShape::Not(part))
    }

    /// Joins the two labels on top by `&`.
    pub(crate) fn join_by_and(&mut self) -> Result<(), Refusal>
        ensures ok { OnOk result (self.new ≡ conjunction (top (below self.old)) (top self.old) ∷
            below (below self.old)) }
        ensures err { IfErr result IsMemory }
    {
        let right = self.pop();
        let left = self.pop();
        let right = Box::new(self.alloc, right)?;
        let left = Box::new(self.alloc, left)?;
        self.push(LabelShape::And(left, right))
    }

    /// Joins the two labels on top by `|`.
    pub(crate) fn join_by_or(&mut self) -> Result<(), Refusal>
        ensures ok { OnOk result (self.new ≡ disjunction (top (below self.old)) (top self.old) ∷
            below (below self.old)) }
        ensures err { IfErr result IsMemory }
    {
        let right = self.pop();
        let left = self.pop();
        let right = Box::new(self.alloc, right)?;
        let left = Box::new(self.alloc, left)?;
        self.push(LabelShape::Or(left, right))
    }
}
