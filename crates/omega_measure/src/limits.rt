ghost use Rattle.std.specs.Prelude.{◌≡◌};
ghost use Rattle.omega_measure.specs.Limits.{most_cells};

/// The most measure cells of a table: nodes times losing priorities in use.
pub const MOST_CELLS: usize = 67_108_864;

/// States that the limit is the number in the definitions.
pub fn measure_limits_are_stated()
    ensures { MOST_CELLS ≡ most_cells }
{}
