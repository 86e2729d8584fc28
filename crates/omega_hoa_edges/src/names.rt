//! Names that a text writes without quotes.

ghost use Rattle.std.specs.Prelude.{◌≡◌};
ghost use Rattle.std.specs.List.{list_all};
ghost use Rattle.omega_text.specs.Bytes.{is_letter as is_letter_byte};
ghost use Rattle.omega_hoa_edges.specs.Names.{goes_on as goes_on_in_identifier};
ghost use Rattle.omega_hoa_edges.specs.Names.{is_identifier as is_identifier_text};

/// Whether a name is an identifier: a letter or an underscore, and then letters, underscores and digits.
pub fn is_identifier(name: &[u8]) -> bool
    ensures { result ≡ is_identifier_text name.now }
{
    match name {
        [] => false,
        [byte, rest @ ..] => is_letter(*byte) && all_go_on(rest),
    }
}

/// Whether each of `bytes` may continue an identifier.
fn all_go_on(bytes: &[u8]) -> bool
    ensures { result ≡ list_all goes_on_in_identifier bytes.now }
{
    for byte in bytes {
        if !goes_on(*byte) {
            return false;
        }
    }
    true
}

/// Whether a byte is a letter or an underscore.
fn is_letter(byte: u8) -> bool
    ensures { result ≡ is_letter_byte byte }
{
    byte.is_ascii_alphabetic() || byte == b'_'
}

/// Whether a byte is a letter, an underscore or a digit.
fn goes_on(byte: u8) -> bool
    ensures { result ≡ goes_on_in_identifier byte }
{
    is_letter(byte) || byte.is_ascii_digit()
}
