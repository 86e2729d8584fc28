use omega_game_values::Player;

/// The suggestion of a search. Nothing is proved of it, not even that its lists have an entry for each place. Its user
/// judges it.
#[derive(Drop)]
pub struct Suggestion {
    /// The winners by place.
    pub winners: Vec<Player>,
    /// For each place, the successor that its owner moves to if the owner is its winner; any number otherwise.
    pub moves: Vec<u32>,
    /// An order of the places which shows that these moves win.
    pub order: Vec<u32>,
}

/// What a searcher came to.
#[derive(Drop)]
pub struct Finding {
    /// What it suggests, or none if it gave up.
    pub suggestion: Option<Suggestion>,
    /// About how many edges it visited.
    pub edges: u64,
}
