ghost use Rattle.std.specs.Prelude.{◌≡◌};
ghost use Rattle.std.specs.List.{prefix_len};
ghost use Rattle.omega_text.specs.private.hoa.scanning.Passing.{is_quoted};

/// Returns the number of bytes at the front that are neither quotes nor backslashes.
pub(super) fn quoted_count(bytes: &[u8]) -> usize
    ensures { result ≡ prefix_len is_quoted bytes.now }
{
    bytes.iter().take_while(|byte| is_quoted(**byte)).count()
}

/// Whether `byte` means itself in a string.
fn is_quoted(byte: u8) -> bool
    ensures { result ≡ is_quoted byte }
{
    byte != b'"' && byte != b'\\'
}
