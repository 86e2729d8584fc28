/// A walk on its way through a component, and for each set of the formula, from 0 on, whether one of its edges is in
/// it. Sets past the table are not in it.
#[derive(Drop)]
pub(crate) struct Walked {
    pub(crate) walk: Vec<u32>,
    pub(crate) sets: Vec<bool>,
}
