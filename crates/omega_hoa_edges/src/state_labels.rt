use omega_hoa_label::Label;

/// The labels of the edges of a state, and the number of the state.
#[derive(Clone, Copy)]
pub struct StateLabels<'a> {
    pub number: u32,
    pub labels: &'a [Label],
}
