//! Laws of the cubes of labels. Each function does nothing and states one law.

ghost use Rattle.omega_hoa_satisfiable.specs.Laws.{LabelsAreTheirCubes, NormalFormsAreDecided};

/// States that the cubes of a label are a disjunctive normal form of it: it is true exactly if all literals of some
/// cube are.
pub fn labels_are_their_cubes()
    ensures { LabelsAreTheirCubes }
{}

/// States that [`is_satisfiable`](crate::is_satisfiable) decides each label in disjunctive normal form with at most
/// `MOST_SIZE` atoms and operators, however many propositions it mentions.
pub fn normal_forms_are_decided()
    ensures { NormalFormsAreDecided }
{}
