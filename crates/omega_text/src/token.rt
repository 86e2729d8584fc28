/// A part of a text: the bytes from `start` up to `end`, which is excluded. Places count from 0.
#[derive(Clone, Copy, Debug, PartialEq, Eq)]
pub struct Span {
    pub start: usize,
    pub end: usize,
}

/// A token of a text, which it borrows. Each format has kinds of its own.
#[derive(Clone, Copy, Debug, PartialEq, Eq)]
pub struct Token<'a, K> {
    /// The bytes of the token, including the quotes of a name.
    pub text: &'a [u8],
    /// The place of these bytes in the text.
    pub span: Span,
    /// The value of a number, and 0 for every other kind.
    pub value: u32,
    pub kind: K,
}
