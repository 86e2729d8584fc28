ghost use Rattle.std.specs.Prelude.{◌≡◌};

use thiserror::Error;

/// Why bytes are no text of a format, with the place of the faulty byte, from 0.
#[derive(Clone, Copy, Debug, PartialEq, Eq, Error)]
pub enum TextFault {
    /// 1: the bytes at `at` begin no token, or a string or comment that begins there has no end.
    #[error("no token begins at byte {at}")]
    Lex { at: usize },
    /// 2: the digits at `at` are not a number of the format.
    #[error("the digits at byte {at} are no number from 0 to 2147483647")]
    Number { at: usize },
    /// 3: the tokens are not in the grammar; `at` is the length of the text if it ends too early.
    #[error("the text can't go on as it does at byte {at}")]
    Syntax { at: usize },
    /// 4: the text has over 16,777,216 bytes.
    #[error("the text has over 16777216 bytes")]
    TooLong,
}

impl TextFault {
    ghost use Rattle.omega_text.specs.Refusal.{text_name, text_number, text_place};

    /// Returns the fault's number, which no other refusal has.
    pub(crate) fn number(self) -> u32
        ensures { result ≡ text_number self }
    {
        match self {
            TextFault::Lex { .. } => 1,
            TextFault::Number { .. } => 2,
            TextFault::Syntax { .. } => 3,
            TextFault::TooLong => 4,
        }
    }

    /// Returns the fault's name, as a program prints it.
    pub(crate) fn name(self) -> &'static str
        ensures { result.now ≡ text_name self }
    {
        match self {
            TextFault::Lex { .. } => "Lex",
            TextFault::Number { .. } => "Number",
            TextFault::Syntax { .. } => "Syntax",
            TextFault::TooLong => "TooLong",
        }
    }

    /// Returns the place of the faulty byte, from 0, and nothing for [TextFault::TooLong].
    pub(crate) fn at(self) -> Option<usize>
        ensures { result ≡ text_place self }
    {
        match self {
            TextFault::Lex { at } | TextFault::Number { at } | TextFault::Syntax { at } => Some(at),
            TextFault::TooLong => None,
        }
    }
}
