ghost use Rattle.std.specs.Prelude.{◌≡◌};
ghost use Rattle.omega_text.specs.Limits.{most_number, most_text};

/// The greatest length of a text, in bytes. Readers of whole texts refuse a longer one with [TextFault::TooLong]; the
/// tokenizer takes texts of any length.
pub const MOST_TEXT: usize = 16_777_216;

/// The greatest value of a number in a text. Digits with a greater value are refused with [TextFault::Number].
pub const MOST_NUMBER: u32 = 2_147_483_647;

/// States that the limits are the numbers in the definitions.
pub fn text_limits_are_stated()
    ensures text { MOST_TEXT ≡ most_text }
    ensures number { MOST_NUMBER ≡ most_number }
{}
