use crate::combination::Combination;

/// What a demand comes to, by demands with smaller numbers.
#[derive(Clone, Copy, Debug, PartialEq, Eq)]
pub enum Shape {
    /// The combination holds now.
    Now(Combination),
    /// The demand holds at the next index.
    Next(u32),
    /// The goal holds now, or `keep` holds now and the demand itself at the next index. If it is `strong`, the goal has
    /// to come.
    Fix {
        /// What ends the waiting.
        goal: Combination,
        /// What holds while one waits.
        keep: Combination,
        /// Whether the goal has to come.
        strong: bool,
    },
}
