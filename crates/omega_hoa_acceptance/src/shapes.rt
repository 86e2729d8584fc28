ghost use Rattle.std.specs.Prelude.{◌≡◌, ◌∷◌, [], IfErr, OnOk};
ghost use Rattle.omega_text.specs.Cases.{IsMemory};
ghost use Rattle.omega_hoa_acceptance.specs.Acceptance.{conjunction, disjunction};
ghost use Rattle.omega_hoa_acceptance.specs.Shape.{acc_tree_of_shape};
ghost use Rattle.omega_hoa_acceptance.specs.private.layout.Acceptance.{acc_below, acc_top};

use crate::shape::AccShape;
use omega_text::Refusal;
use std::alloc::Global;
use std::marker::Model;

/// A stack of acceptance formulas as trees of boxes.
#[derive(Drop)]
pub(crate) struct AccShapes {
    items: Vec<AccShape>,
    alloc: Global,
}

impl Model for AccShapes {
    ghost use Rattle.std.specs.Prelude.{List, map, reverse};
    ghost use Rattle.std.specs.Coded.{coded_list};
    ghost use Rattle.omega_hoa_acceptance.specs.Shape.{acc_tree_of_shape};
    ghost use Rattle.omega_hoa_acceptance.specs.Acceptance.{AccTree};
    ghost use Rattle.omega_hoa_acceptance.specs.private.layout.Acceptance.{acc_code};

    ghost Value = { List AccTree };

    ghost coded = { coded_list acc_code };

    ghost view = { λ s. map acc_tree_of_shape (reverse s.items.items) };
}

impl AccShapes {
    /// Makes an empty stack.
    pub(crate) fn new(alloc: Global) -> Self
        ensures { result ≡ [] }
    {
        AccShapes {
            items: Vec::new(alloc),
            alloc,
        }
    }

    /// Pushes a formula.
    pub(crate) fn push(&mut self, shape: AccShape) -> Result<(), Refusal>
        ensures ok { OnOk result (self.new ≡ acc_tree_of_shape shape ∷ self.old) }
        ensures err { IfErr result IsMemory }
    {
        self.items.push(shape)?;
        Ok(())
    }

    /// Pops the formula on top, or returns a constant if the stack is empty.
    pub(crate) fn pop(&mut self) -> AccShape
        ensures shape { acc_tree_of_shape result ≡ acc_top self.old }
        ensures rest { self.new ≡ acc_below self.old }
    {
        match self.items.pop() {
            Some(shape) => shape,
            None => AccShape::Constant(false),
        }
    }

    /// Joins the two formulas on top by `&`.
    pub(crate) fn join_by_and(&mut self) -> Result<(), Refusal>
        ensures ok { OnOk result
            (self.new ≡ conjunction (acc_top (acc_below self.old)) (acc_top self.old) ∷
            acc_below (acc_below self.old)) }
        ensures err { IfErr result IsMemory }
    {
        let right = self.pop();
        let left = self.pop();
        let right = Box::new(self.alloc, right)?;
        let left = Box::new(self.alloc, left)?;
        self.push(AccShape::And(left, right))
    }

    /// Joins the two formulas on top by `|`.
    pub(crate) fn join_by_or(&mut self) -> Result<(), Refusal>
        ensures ok { OnOk result
            (self.new ≡ disjunction (acc_top (acc_below self.old)) (acc_top self.old) ∷
            acc_below (acc_below self.old)) }
        ensures err { IfErr result IsMemory }
    {
        let right = self.pop();
        let left = self.pop();
        let right = Box::new(self.alloc, right)?;
        let left = Box::new(self.alloc, left)?;
        self.push(AccShape::Or(left, right))
    }
}
