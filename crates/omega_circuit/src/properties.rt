use omega_text::Seq;

/// The properties of a circuit in the sense of hardware model checking. No circuit here has any: what makes a circuit
/// refuses them, and before that judges their literals.
#[derive(Debug)]
pub struct Properties {
    /// The literals of bad states.
    pub bad: Seq<u32>,
    /// The literals of invariant constraints.
    pub constraints: Seq<u32>,
    /// The number of literals of each justice property.
    pub justice_sizes: Seq<u32>,
    /// The literals of all justice properties, one property after the other.
    pub justice: Seq<u32>,
    /// The literals of fairness constraints.
    pub fairness: Seq<u32>,
}

impl Drop for Properties {
    fn drop(self) {
        let Properties {
            bad: _,
            constraints: _,
            justice_sizes: _,
            justice: _,
            fairness: _,
        } = self;
    }
}
