//! Laws of the meaning of formulas, for readers and callers' proofs. Each function does nothing and states one law.

ghost use Rattle.omega_ltl_formula.specs.Formula.{FormulaTree};
ghost use Rattle.omega_ltl_formula.specs.Laws.{DualsHold, FormulasAreDecided, OperatorsByOthers, OperatorsUnfold};
ghost use Rattle.omega_ltl_formula.specs.Table.{NodesAreOverNodes};

/// States that a formula is true or false at each index of a word, by the limited principle of omniscience.
pub fn formulas_are_decided()
    ensures { FormulasAreDecided }
{}

/// States which operators are others in disguise, as `F f` is `1 U f` and `f W g` is `(f U g) | G f`.
pub fn operators_by_others()
    ensures { (f g : FormulaTree) → OperatorsByOthers f g }
{}

/// States that a negation moves inwards, as `!(f U g)` is `!f R !g`.
pub fn duals_hold()
    ensures { (f g : FormulaTree) → DualsHold f g }
{}

/// States what each temporal operator says of its index and of the next one, as `f U g` is `g | (f & X(f U g))`.
pub fn operators_unfold()
    ensures { (f g : FormulaTree) → OperatorsUnfold f g }
{}

/// States that each node of a table is a formula over those of its operands.
pub fn nodes_are_over_nodes()
    ensures { NodesAreOverNodes }
{}
