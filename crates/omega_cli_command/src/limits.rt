ghost use Rattle.std.specs.Prelude.{◌≡◌};
ghost use Rattle.omega_cli_command.specs.Limits.{most_budget, most_effort};

/// The largest value of `--budget`, which is also its default.
pub const MOST_BUDGET: u64 = 1_099_511_627_776;

/// The largest value of `--effort`.
pub const MOST_EFFORT: u64 = 1_000;

/// States that the limit of budgets is the number in the definitions.
pub fn budget_limit_is_stated()
    ensures { MOST_BUDGET ≡ most_budget }
{}

/// States that the limit of efforts is the number in the definitions.
pub fn effort_limit_is_stated()
    ensures { MOST_EFFORT ≡ most_effort }
{}
