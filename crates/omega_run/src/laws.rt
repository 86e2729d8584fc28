ghost use Rattle.std.specs.Prelude.{◌≡◌};
ghost use Rattle.omega_cli_command.specs.Limits.{most_budget};
ghost use Rattle.omega_solve.specs.Limits.{most_lifts};

/// States that the greatest budget of a command line is the most lifts that a solver makes.
pub fn budgets_are_of_solvers()
    ensures { most_budget ≡ most_lifts }
{}
