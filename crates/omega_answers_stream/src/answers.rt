/// The answers to the items of a stream.
#[derive(Drop)]
pub struct Answers {
    /// Their texts, one after the other.
    pub text: Vec<u8>,
    /// Whether one of them is `no`.
    pub no: bool,
    /// The number of automata among the items. An aborted segment is none.
    pub automata: usize,
}
