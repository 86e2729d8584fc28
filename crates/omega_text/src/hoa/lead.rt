ghost use Rattle.std.specs.Prelude.{◌≡◌};
ghost use Rattle.omega_text.specs.private.hoa.scanning.Leads.{lead_of};

use super::kind::HoaKind::{
    self, And, CloseBrace, CloseBracket, CloseParenthesis, Not, OpenBrace, OpenBracket,
    OpenParenthesis, Or,
};

/// What the first byte of a unit says of it.
#[derive(Clone, Copy, Debug, PartialEq, Eq)]
pub(super) enum Lead {
    /// A part of a gap, which has no more bytes.
    White,
    /// The token that the byte is.
    Sign(HoaKind),
    /// A number.
    Digit,
    /// A word, or a header name.
    Letter,
    /// A string.
    Quote,
    /// An alias name.
    At,
    /// A mark, a comment, or nothing.
    Other,
}

use Lead::{At, Digit, Letter, Other, Quote, Sign, White};

// A table, so that no byte is compared with others.
#[rattlefmt::skip]
static LEADS: [Lead; 256] = [
    Other, Other, Other, Other, Other, Other, Other, Other,
    Other, White, White, Other, Other, White, Other, Other,
    Other, Other, Other, Other, Other, Other, Other, Other,
    Other, Other, Other, Other, Other, Other, Other, Other,
    White, Sign(Not), Quote, Other, Other, Other, Sign(And), Other,
    Sign(OpenParenthesis), Sign(CloseParenthesis), Other, Other, Other, Other, Other, Other,
    Digit, Digit, Digit, Digit, Digit, Digit, Digit, Digit,
    Digit, Digit, Other, Other, Other, Other, Other, Other,
    At, Letter, Letter, Letter, Letter, Letter, Letter, Letter,
    Letter, Letter, Letter, Letter, Letter, Letter, Letter, Letter,
    Letter, Letter, Letter, Letter, Letter, Letter, Letter, Letter,
    Letter, Letter, Letter, Sign(OpenBracket), Other, Sign(CloseBracket), Other, Letter,
    Other, Letter, Letter, Letter, Letter, Letter, Letter, Letter,
    Letter, Letter, Letter, Letter, Letter, Letter, Letter, Letter,
    Letter, Letter, Letter, Letter, Letter, Letter, Letter, Letter,
    Letter, Letter, Letter, Sign(OpenBrace), Sign(Or), Sign(CloseBrace), Other, Other,
    Other, Other, Other, Other, Other, Other, Other, Other,
    Other, Other, Other, Other, Other, Other, Other, Other,
    Other, Other, Other, Other, Other, Other, Other, Other,
    Other, Other, Other, Other, Other, Other, Other, Other,
    Other, Other, Other, Other, Other, Other, Other, Other,
    Other, Other, Other, Other, Other, Other, Other, Other,
    Other, Other, Other, Other, Other, Other, Other, Other,
    Other, Other, Other, Other, Other, Other, Other, Other,
    Other, Other, Other, Other, Other, Other, Other, Other,
    Other, Other, Other, Other, Other, Other, Other, Other,
    Other, Other, Other, Other, Other, Other, Other, Other,
    Other, Other, Other, Other, Other, Other, Other, Other,
    Other, Other, Other, Other, Other, Other, Other, Other,
    Other, Other, Other, Other, Other, Other, Other, Other,
    Other, Other, Other, Other, Other, Other, Other, Other,
    Other, Other, Other, Other, Other, Other, Other, Other,
];

/// Returns what `byte` says of the unit that it begins.
#[inline(always)]
pub(super) fn lead_of(byte: u8) -> Lead
    ensures { result ≡ lead_of byte }
{
    LEADS[byte as usize]
}
