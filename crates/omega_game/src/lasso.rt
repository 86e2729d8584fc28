use omega_text::Seq;

/// A walk that ends in a cycle: the places of the stem, then those of the cycle again and again.
#[derive(Debug, PartialEq, Eq)]
pub struct Lasso {
    /// The places before the first one on the cycle: none if the walk begins on the cycle.
    pub stem: Seq<u32>,
    /// The places of the cycle from that first one on. The last one leads back to the first.
    pub cycle: Seq<u32>,
}

impl Drop for Lasso {
    fn drop(self) {
        let Lasso { stem: _, cycle: _ } = self;
    }
}
