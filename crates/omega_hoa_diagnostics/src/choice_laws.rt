//! Laws of all texts, for the proofs of callers: each function does nothing and states one law.

ghost use Rattle.omega_hoa_diagnostics.specs.ChoiceLaws.{ChoicesAreTold};

/// States that the line for a text is about the refusal of its complement with [TaskFault::NotDeterministic]: about
/// several starts if there are, else about two edges of the state of the refusal. There is no line only if it may be
/// left undecided of a state up to that one whether two of its edges can be taken together.
pub fn choices_are_told()
    ensures { ChoicesAreTold }
{}
