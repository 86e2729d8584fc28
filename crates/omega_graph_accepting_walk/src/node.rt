/// A node of an acceptance formula. An operator names its parts by their places, which come before its own.
#[derive(Clone, Copy)]
pub(crate) enum Node {
    Constant(bool),
    Inf(bool, u32),
    Fin(bool, u32),
    And(u32, u32),
    Or(u32, u32),
}
