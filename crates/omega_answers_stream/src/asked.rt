use crate::answers::Answers;
use omega_text::Refusal;

/// What the items of a stream were answered.
#[derive(Drop)]
pub struct Asked {
    /// The answers. If an item is refused, they are unfinished.
    pub answers: Answers,
    /// The refusal of the first item that is refused, or [None] if all items are answered.
    pub refused: Option<Refusal>,
}
