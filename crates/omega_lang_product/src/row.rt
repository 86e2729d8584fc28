ghost use Rattle.std.specs.Prelude.{◌≡◌, ◌<◌, true, drop, length, take, IfOk, IsOkUnless};
ghost use Rattle.omega_lang_product.specs.private.Adding.{numbered_in};
ghost use Rattle.omega_lang_product.specs.private.Labelling.{HasEdge, edge_numbered};
ghost use Rattle.omega_lang_product.specs.private.Meeting.{HasPartners, MeetsAlone};

use crate::numbers::number_after;
use crate::tabled::Tabled;
use omega_text::Refusal;

/// The edges of a state as a product sees them, and the number of the first of them.
#[derive(Clone, Copy)]
pub(crate) struct Row<'a> {
    pub(crate) before: u32,
    pub(crate) edges: &'a [Tabled],
}

impl<'a> Row<'a> {
    /// Returns the edge with the number `number`.
    pub(crate) fn edge(&self, number: u32) -> &Tabled
        requires { HasEdge self.now number }
        ensures { result.now ≡ edge_numbered self.now number }
    {
        &self.edges[(number - self.before) as usize]
    }

    /// Returns edges of this row with all that can be taken together with `first`: with `by_index` the one at `at`, and
    /// else all.
    pub(crate) fn partners_of(
        &self,
        first: &RowEdge<'_>,
        at: usize,
        by_index: bool,
    ) -> Result<Row<'a>, Refusal>
        requires { by_index ≡ true → MeetsAlone first.now.edge.now at self.now.edges.now }
        ensures partners { IfOk result (HasPartners first.now self.now) }
        ensures memory { IsOkUnless result Refusal.Memory }
    {
        if by_index { self.row_at(at) } else { Ok(*self) }
    }

    /// Returns the row of the edge at `at` alone.
    fn row_at(&self, at: usize) -> Result<Row<'a>, Refusal>
        requires { at < length self.now.edges.now }
        ensures edges { IfOk result (λ row. row.edges.now ≡ take 1 (drop at self.now.edges.now)) }
        ensures numbered { IfOk result
            (λ row. numbered_in row ≡ take 1 (drop at (numbered_in self.now))) }
        ensures memory { IsOkUnless result Refusal.Memory }
    {
        let before = number_after(self.before, at)?;
        Ok(Row {
            before,
            edges: &self.edges[at..at + 1],
        })
    }
}

/// An edge as a product sees it, and its number.
#[derive(Clone, Copy)]
pub(crate) struct RowEdge<'a> {
    pub(crate) number: u32,
    pub(crate) edge: &'a Tabled,
}
