/// The answer of a solver for its player within a budget: whole vectors, by place, and the number of lifts.
#[derive(Drop)]
pub struct Found {
    /// Whether the player wins from the place.
    pub won: Vec<bool>,
    /// The place that the player moves to, for each won place that the player owns; none for all others.
    pub choice: Vec<Option<u32>>,
    /// The number of lifts made.
    pub lifts: u64,
}
