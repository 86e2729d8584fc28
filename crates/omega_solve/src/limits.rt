ghost use Rattle.std.specs.Prelude.{◌≡◌};
ghost use Rattle.omega_solve.specs.Limits.{most_lifts};

/// The most lifts of one solver, and the greatest budget.
pub const MOST_LIFTS: u64 = 1_099_511_627_776;

/// States that the limit is the number in the definitions.
pub fn lift_limits_are_stated()
    ensures { MOST_LIFTS ≡ most_lifts }
{}
