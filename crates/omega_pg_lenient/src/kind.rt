use omega_text::PgKind;

/// The kind of a token of a lenient game text.
#[derive(Clone, Copy, Debug, PartialEq, Eq)]
pub(crate) enum LenientKind {
    /// A token that a strict text may have too.
    Strict(PgKind),
    /// The word `start`, which begins the statement of a first node.
    Start,
}
