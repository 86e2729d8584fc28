use super::kind::HoaKind;
use crate::refusal::TextFault;
use crate::token::Span;

/// A token of a text that comes byte by byte: a `Token` without its bytes.
#[derive(Clone, Copy, Debug, PartialEq, Eq)]
pub struct PlacedToken {
    pub kind: HoaKind,
    /// The value of a number, and 0 for every other kind.
    pub value: u32,
    /// The place of the token, counted from the first byte of the text.
    pub span: Span,
}

/// What a byte settles: at most two tokens, in the order of the text, and after them perhaps a fault.
#[derive(Clone, Copy, Debug, PartialEq, Eq)]
pub struct Settled {
    pub first: Option<PlacedToken>,
    pub second: Option<PlacedToken>,
    pub fault: Option<TextFault>,
}
