//! Laws of the definitions: what holds of parts, whatever the code does.
ghost use Rattle.omega_game_reaching.specs.Laws.{PartsAreGames, PartsKeepNodes};

/// Proves that a part keeps the nodes that it has: their owners, their priorities and their edges.
pub fn parts_keep_nodes()
    ensures { PartsKeepNodes }
{}

/// Proves that the part of a node of a game is a game.
pub fn parts_are_games()
    ensures { PartsAreGames }
{}
