use crate::search::WalkSearch;
use crate::valuing::FormulaValue;

/// The edges that a search looks at together, and the value of each node of its formula on them.
#[derive(Clone, Copy)]
pub(crate) struct Round<'a> {
    pub(crate) search: WalkSearch<'a>,
    pub(crate) edges: &'a [u32],
    pub(crate) values: &'a [FormulaValue],
}
