ghost use Rattle.std.specs.Prelude.{◌≡◌};
ghost use Rattle.std.specs.List.{prefix_len};
ghost use Rattle.omega_text.specs.pg.Forms.{is_name_byte};

const QUOTE: u8 = b'"';

fn is_name_byte(byte: u8) -> bool
    ensures { result ≡ is_name_byte byte }
{
    byte >= 32 && byte <= 126 && byte != QUOTE
}

/// Returns the number of bytes at the front that may be in a name.
pub(crate) fn name_count(bytes: &[u8]) -> usize
    ensures { result ≡ prefix_len is_name_byte bytes.now }
{
    bytes.iter().take_while(|byte| is_name_byte(**byte)).count()
}
