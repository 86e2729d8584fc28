/// Components that a search suggests, with numbers that show why the edges of each lead to each other.
#[derive(Drop)]
pub(crate) struct SuggestedComponents {
    /// By state, the number of its component. No edge leads to a component of a greater number.
    pub components: Vec<u32>,
    /// By state, a number: each state but one of a component is entered from a state of it with a lesser number.
    pub orders: Vec<u64>,
    /// By state, a number: each state but that one has an edge to a state of its component with a lesser number.
    pub ranks: Vec<u64>,
}
