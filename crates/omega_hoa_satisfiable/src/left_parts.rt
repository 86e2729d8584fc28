ghost use Rattle.std.specs.Prelude.{◌≡◌, ◌∷◌, [], IfOk, IsOkUnless, OnOk};
ghost use Rattle.omega_hoa_satisfiable.specs.private.Encoding.{next_part, parts_below, right_part};

use crate::part::LabelPart;
use omega_text::Refusal;
use std::alloc::Global;
use std::marker::Model;

/// A part of a label with two parts, of which the right one is encoded first and the left one waits.
#[derive(Clone, Copy)]
pub(crate) struct WaitingPart {
    /// Whether both parts are to hold; otherwise one of them is.
    pub(crate) both: bool,
    pub(crate) whole: LabelPart,
}

/// The left parts that wait, the next on top.
#[derive(Drop)]
pub(crate) struct LeftParts {
    items: Vec<WaitingPart>,
}

impl Model for LeftParts {
    ghost use Rattle.std.specs.Prelude.{List, reverse};
    ghost use Rattle.omega_hoa_satisfiable.specs.declared.left_parts.WaitingPart.{WaitingPart};

    ghost Value = { List WaitingPart };

    ghost view = { λ p. reverse p.items.items };
}

impl LeftParts {
    /// Makes an empty stack.
    pub(crate) fn new(alloc: Global) -> Self
        ensures { result ≡ [] }
    {
        LeftParts {
            items: Vec::new(alloc),
        }
    }

    /// Lets the left part of `whole` wait, and returns its right one. Both are to hold if `both`, otherwise one.
    pub(crate) fn join(&mut self, both: bool, whole: LabelPart) -> Result<LabelPart, Refusal>
        ensures waiting { OnOk result (self.new ≡ record { both = both; whole = whole } ∷ self.old) }
        ensures right { IfOk result (λ right. right ≡ right_part both whole) }
        ensures memory { IsOkUnless result Refusal.Memory }
    {
        self.items.push(WaitingPart { both, whole })?;
        Ok(whole.right(both))
    }

    /// Takes the next left part, whose right one is encoded at the place `right`. Returns `last` if none waits.
    pub(crate) fn take(&mut self, last: LabelPart, right: usize) -> LabelPart
        ensures part { result ≡ next_part last self.old right }
        ensures rest { self.new ≡ parts_below self.old }
    {
        match self.items.pop() {
            Some(joined) => joined.whole.left(joined.both, right),
            None => last,
        }
    }
}
