/// The edges of a list: their numbers, and for each the states that it leaves and enters, all below a count.
#[derive(Clone, Copy)]
pub(crate) struct ListedEdges<'a> {
    pub count: usize,
    pub leaves: &'a [u32],
    pub enters: &'a [u32],
    pub numbers: &'a [u32],
}
