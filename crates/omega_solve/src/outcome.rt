/// How a run of a solver ended.
#[derive(Clone, Copy, Debug, PartialEq, Eq)]
pub enum Outcome {
    /// No lift is due: the solver has its answer.
    Done,
    /// The budget was used up and a further lift is due.
    Spent,
}
