use omega_hoa_parity_kind::ParityKind;

/// An acceptance condition whose emptiness is decided.
#[derive(Clone, Copy, Debug, PartialEq, Eq)]
pub enum AccKind {
    Parity(ParityKind),
    /// Each of the sets below this count occurs infinitely often.
    GenBuchi(u32),
}
