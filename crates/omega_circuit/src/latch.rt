/// A latch: it holds a value for a round, and takes its next one at the end of the round.
#[derive(Clone, Copy, Debug, PartialEq, Eq)]
pub struct Latch {
    /// The literal that the latch defines, which is even.
    pub literal: u32,
    /// The literal whose value in a round the latch has in the next round.
    pub next: u32,
    /// The value of the latch in the first round, 0 or 1.
    pub reset: u32,
}
