//! Laws of reading. Each function does nothing and states one law.

ghost use Rattle.omega_hoa_label_text.specs.Reading.{LabelsAreOne};

/// States that at most one label is read from any tokens, and that at most one rest is left.
pub fn labels_are_one()
    ensures { LabelsAreOne }
{}
