//! How many bytes the parts of a walk's text have that are no part of its lasso.
ghost use Rattle.std.specs.Prelude.{◌≡◌};
ghost use Rattle.std.specs.List.{prefix_len};
ghost use Rattle.omega_text.specs.pg.Forms.{is_name_byte};
ghost use Rattle.omega_answers_walk.specs.Covered.{begins_with_player, front_size, name_size};
ghost use Rattle.omega_answers_walk.specs.Covered.{no_size, player_size, quoted_size};

/// Returns how many bytes the lines before the stem have: that of `no`, and then that of a player.
pub(crate) fn front_size(bytes: &[u8]) -> usize
    ensures { result ≡ front_size bytes.now }
{
    let size = no_size(bytes);
    size + player_size(&bytes[size..])
}

/// Returns how many bytes the name in double quotes has with which `bytes` begin, its quotes counted. Returns 0 if they
/// begin with none.
pub(crate) fn quoted_size(bytes: &[u8]) -> usize
    ensures { result ≡ quoted_size bytes.now }
{
    let [byte, rest @ ..] = bytes else {
        return 0;
    };
    if *byte != b'"' {
        return 0;
    }
    match name_size(rest) {
        0 => 0,
        size => size + 1,
    }
}

/// Returns how many bytes the line `no` has with which `bytes` begin, or 0.
fn no_size(bytes: &[u8]) -> usize
    ensures { result ≡ no_size bytes.now }
{
    if bytes.starts_with(b"no\n") { 3 } else { 0 }
}

/// Returns how many bytes the line of a player has with which `bytes` begin, or 0.
fn player_size(bytes: &[u8]) -> usize
    ensures { result ≡ player_size bytes.now }
{
    if begins_with_player(bytes) { 9 } else { 0 }
}

/// Whether `bytes` begin with the line of a player.
fn begins_with_player(bytes: &[u8]) -> bool
    ensures { result ≡ begins_with_player bytes.now }
{
    bytes.starts_with(b"player 0\n") || bytes.starts_with(b"player 1\n")
}

/// Returns how many bytes the name has with which `bytes` begin, the double quote at its end counted. Returns 0 if
/// there is no such quote.
fn name_size(bytes: &[u8]) -> usize
    ensures { result ≡ name_size bytes.now }
{
    let count = name_count(bytes);
    if count < bytes.len() && bytes[count] == b'"' {
        count + 1
    } else {
        0
    }
}

/// Returns the number of bytes at the front that names of games may have.
fn name_count(bytes: &[u8]) -> usize
    ensures { result ≡ prefix_len is_name_byte bytes.now }
{
    bytes.iter().take_while(|byte| is_name_byte(**byte)).count()
}

/// Whether a name of a game may have `byte`: it is a printable byte of ASCII but the double quote.
fn is_name_byte(byte: u8) -> bool
    ensures { result ≡ is_name_byte byte }
{
    byte >= 32 && byte <= 126 && byte != b'"'
}
