ghost use Rattle.std.specs.Prelude.{◌≡◌};
ghost use Rattle.omega_game_values.specs.Limits.{most_nodes, most_successors};

/// The most nodes of a game. More are refused with `GameFault::TooManyNodes`.
pub const MOST_NODES: usize = 1_048_576;

/// The most listed successors of a game, repeats counted. More are refused with `GameFault::TooManyEdges`.
pub const MOST_SUCCESSORS: usize = 8_388_608;

/// Proves that the limits are the numbers of the definitions.
pub fn game_limits_are_stated()
    ensures nodes { MOST_NODES ≡ most_nodes }
    ensures successors { MOST_SUCCESSORS ≡ most_successors }
{}
