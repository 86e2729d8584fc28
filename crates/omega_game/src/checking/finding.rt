/// The suggestion of a search.
#[derive(Drop)]
pub(crate) enum Finding {
    /// A place of a losing priority that recurs.
    Recurring(u32),
    /// An order of the places that shows that none recurs at a losing priority.
    Order(Vec<u32>),
}
