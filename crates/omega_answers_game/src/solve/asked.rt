use omega_game::Player;

/// The question to be answered for a game.
#[derive(Clone, Copy, Debug, PartialEq, Eq)]
pub enum Asked {
    /// Which nodes this player wins, by lifting.
    Player(Player),
    /// Who wins each node, by lifting for each player.
    Both,
    /// Who wins each node, by a search whose answer is judged, and by lifting if the search gives none.
    Search,
}
