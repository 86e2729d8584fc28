//! Names of propositions.

ghost use Rattle.std.specs.Prelude.{◌≡◌, ◌++◌, IsOkUnless, OnOk};
ghost use Rattle.omega_lang_lasso_word.specs.Names as written;

use omega_hoa_edges::is_identifier;
use omega_text::Refusal;

/// Appends `name`, in quotes unless `stands_bare` says that it needs none.
pub fn write_name(name: &[u8], out: &mut Vec<u8>) -> Result<(), Refusal>
    ensures text { OnOk result (out.new.items ≡ out.old.items ++ written.name_text name.now) }
    ensures memory { IsOkUnless result Refusal.Memory }
{
    if stands_bare(name) {
        out.extend_from_slice(name)?;
        return Ok(());
    }
    out.push(b'"')?;
    out.extend_from_slice(name)?;
    out.push(b'"')?;
    Ok(())
}

/// Whether Spot reads `name` without quotes as a name: an identifier that is not reserved (Spot's tl.pdf, atomic
/// propositions).
pub fn stands_bare(name: &[u8]) -> bool
    ensures { result ≡ written.stands_bare name.now }
{
    is_identifier(name) && !is_reserved(name)
}

/// Whether Spot reads something else than a name, though `name` is an identifier.
fn is_reserved(name: &[u8]) -> bool
    ensures { result ≡ written.is_reserved name.now }
{
    is_keyword(name) || is_single_sign(name) || begins_with_operator(name)
}

/// Whether `name` is a keyword, in letters of either case.
fn is_keyword(name: &[u8]) -> bool
    ensures { result ≡ written.is_keyword name.now }
{
    name.eq_ignore_ascii_case(b"true")
        || name.eq_ignore_ascii_case(b"false")
        || name.eq_ignore_ascii_case(b"xor")
        || name.eq_ignore_ascii_case(b"first_match")
        || name.eq_ignore_ascii_case(b"cycle")
}

/// Whether `name` is an operator of two operands, or a constant of the Hanoi format.
fn is_single_sign(name: &[u8]) -> bool
    ensures { result ≡ written.is_single_sign name.now }
{
    name == b"M".as_slice()
        || name == b"R".as_slice()
        || name == b"U".as_slice()
        || name == b"V".as_slice()
        || name == b"W".as_slice()
        || name == b"t".as_slice()
        || name == b"f".as_slice()
}

/// Whether `name` begins with an operator of one operand.
fn begins_with_operator(name: &[u8]) -> bool
    ensures { result ≡ written.begins_with_operator name.now }
{
    match name {
        [] => false,
        [byte, ..] => *byte == b'F' || *byte == b'G' || *byte == b'X',
    }
}
