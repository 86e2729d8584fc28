//! Laws of the faults of lassos, for callers' proofs. A call does nothing and states one law.
ghost use Rattle.omega_lang_lasso_check.specs.Laws.{LassoFaultsAreOne};

/// States that a lasso has at most one fault.
pub fn lasso_faults_are_one()
    ensures { LassoFaultsAreOne }
{}
