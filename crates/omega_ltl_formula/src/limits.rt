//! The limits of formulas.

ghost use Rattle.std.specs.Prelude.{◌≡◌};
ghost use Rattle.omega_ltl_formula.specs.Limits.{most_formula_depth, most_formula_names, most_formula_nodes};

/// The greatest depth of a formula.
pub const MOST_FORMULA_DEPTH: usize = 256;

/// The greatest number of atoms and operators of a formula.
pub const MOST_FORMULA_NODES: usize = 4096;

/// The greatest number of names of a formula.
pub const MOST_FORMULA_NAMES: usize = 64;

/// States the limits in numbers.
pub fn formula_limits_are_stated()
    ensures depth { MOST_FORMULA_DEPTH ≡ most_formula_depth }
    ensures nodes { MOST_FORMULA_NODES ≡ most_formula_nodes }
    ensures names { MOST_FORMULA_NAMES ≡ most_formula_names }
{}
