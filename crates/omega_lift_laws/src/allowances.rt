ghost use Rattle.omega_lift_laws.specs.Laws.{AllowancesAreLeastSufficient, AllowancesAreMonotone};
ghost use Rattle.omega_lift_laws.specs.Laws.{AllowancesAreStrict, AllowancesAreUnique};
ghost use Rattle.omega_lift_laws.specs.Laws.{AllowancesExceed, AllowancesExist};

/// States that the allowance towards a measure is the least sufficient one, which is given by its entries.
pub fn allowances_are_least_sufficient()
    ensures { AllowancesAreLeastSufficient }
{}

/// States that there is an allowance towards each measure.
pub fn allowances_exist()
    ensures { AllowancesExist }
{}

/// States that there is only one allowance towards each measure.
pub fn allowances_are_unique()
    ensures { AllowancesAreUnique }
{}

/// States that the allowance towards a measure that is no less is no less.
pub fn allowances_are_monotone()
    ensures { AllowancesAreMonotone }
{}

/// States that the allowance towards a greater measure is greater, if the lesser allowance is below top.
pub fn allowances_are_strict()
    ensures { AllowancesAreStrict }
{}

/// States that a measure does not suffice exactly if the allowance exceeds it.
pub fn allowances_exceed()
    ensures { AllowancesExceed }
{}
