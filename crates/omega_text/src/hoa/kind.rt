ghost use Rattle.std.specs.Prelude.{◌≡◌};
ghost use Rattle.omega_text.specs.hoa.Forms.{spelling};

/// The kind of a token of a Hanoi text. A grammar sees the kind, the value of a number and the bytes of a name or a
/// string, and nothing else of a token.
#[derive(Clone, Copy, Debug, PartialEq, Eq)]
pub enum HoaKind {
    /// A word that no colon follows directly, other than `t` and `f`.
    Identifier,
    /// A word and the colon that follows it directly, as `Acceptance:`.
    HeaderName,
    /// `@` and a name, as `@a`.
    AliasName,
    /// The constant `t`.
    True,
    /// The constant `f`.
    False,
    /// A number, from 0 to `MOST_NUMBER`.
    Int,
    /// Bytes between double quotes; a backslash takes the next byte with it.
    String,
    /// The mark `--BODY--`.
    Body,
    /// The mark `--END--`.
    End,
    /// The mark `--ABORT--`.
    Abort,
    /// The sign `!`.
    Not,
    /// The sign `&`.
    And,
    /// The sign `|`.
    Or,
    /// The sign `(`.
    OpenParenthesis,
    /// The sign `)`.
    CloseParenthesis,
    /// The sign `[`.
    OpenBracket,
    /// The sign `]`.
    CloseBracket,
    /// The sign `{`.
    OpenBrace,
    /// The sign `}`.
    CloseBrace,
}

/// Returns the spelling of a constant, a mark or a sign, and nothing for the other kinds.
pub(crate) fn spelling(kind: HoaKind) -> &'static [u8]
    ensures { result.now ≡ spelling kind }
{
    match kind {
        HoaKind::True => b"t",
        HoaKind::False => b"f",
        HoaKind::Body => b"--BODY--",
        HoaKind::End => b"--END--",
        HoaKind::Abort => b"--ABORT--",
        HoaKind::Not => b"!",
        HoaKind::And => b"&",
        HoaKind::Or => b"|",
        HoaKind::OpenParenthesis => b"(",
        HoaKind::CloseParenthesis => b")",
        HoaKind::OpenBracket => b"[",
        HoaKind::CloseBracket => b"]",
        HoaKind::OpenBrace => b"{",
        HoaKind::CloseBrace => b"}",
        _ => b"",
    }
}
