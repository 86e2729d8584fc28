//! Laws of all labels. Each function does nothing and states one law.

ghost use Rattle.std.specs.Prelude.{◌≡◌};
ghost use Rattle.std.specs.Bool.{Decides};
ghost use Rattle.omega_hoa_label.specs.Label.{LabelTree};
ghost use Rattle.omega_hoa_label.specs.Raw.{RawLabelTree};

use crate::label::Label;
use crate::raw::RawLabel;

/// States that `==` of two labels, expanded or as they are written, decides whether they are the same tree.
pub fn equal_labels_are_equal_trees()
    ensures labels { (one other : LabelTree)
        → Decides (⟦<Label as PartialEq>⟧.eq one other) (one ≡ other) }
    ensures raw_labels { (one other : RawLabelTree)
        → Decides (⟦<RawLabel as PartialEq>⟧.eq one other) (one ≡ other) }
{}
