/// How the numbers of an automaton change within a product.
#[derive(Clone, Copy)]
pub(crate) struct Renumbering<'a> {
    /// The joined number of each of its propositions.
    pub(crate) places: &'a [u32],
    /// How many sets are numbered before its own.
    pub(crate) before: u32,
}
