ghost use Rattle.std.specs.Prelude.{◌≡◌};
ghost use Rattle.omega_hoa_satisfiable.specs.Limits.{most_visited};

use omega_hoa_expression::MOST_DEPTH;

/// The most steps of a label that are visited before the search is given up.
pub const MOST_VISITED: u32 = 4_194_304;

/// The most words on the stack at once, for the deepest label.
pub(crate) const MOST_STACKED: usize = MOST_DEPTH as usize;

/// Shows that the limit is the number that the definitions state.
pub fn visits_limit_is_stated()
    ensures { MOST_VISITED ≡ most_visited }
{}
