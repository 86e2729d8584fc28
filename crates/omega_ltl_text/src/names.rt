//! How names are written.

ghost use Rattle.std.specs.Prelude.{◌≡◌, ◌++◌, ◌&&◌, not, IsOkUnless, OnOk};
ghost use Rattle.std.specs.List.{list_all};
ghost use Rattle.std.specs.Option.{is_some};
ghost use Rattle.omega_ltl_text.specs.Tokens.{goes_on, letter_operator};
ghost use Rattle.omega_ltl_text.specs.Written.{begins_with_operator, is_name, name_text, stands_bare};

use crate::bytes::{byte_at, goes_on, is_digit, is_letter};
use crate::kind::FormulaKind;
use crate::spelling::{letter_operator, word_kind};
use omega_text::Refusal;

/// Appends `name`, in quotes unless it stands without.
pub(crate) fn write_name(name: &[u8], out: &mut Vec<u8>) -> Result<(), Refusal>
    ensures text { OnOk result (out.new.items ≡ out.old.items ++ name_text name.now) }
    ensures memory { IsOkUnless result Refusal.Memory }
{
    if stands_bare(name) {
        out.extend_from_slice(name)?;
        return Ok(());
    }
    out.push(b'"')?;
    out.extend_from_slice(name)?;
    out.push(b'"')?;
    Ok(())
}

/// Whether `name` is read as the same name without quotes.
fn stands_bare(name: &[u8]) -> bool
    ensures { result ≡ stands_bare name.now }
{
    let letter = is_letter(byte_at(name, 0));
    let word = all_go_on(name);
    let operator = begins_with_operator(name);
    let named = is_name(word_kind(name));
    is_bare(letter, word, operator, named)
}

/// Whether a name stands bare: it begins with a letter, is a word, begins with no operator, and is read as a name.
fn is_bare(letter: bool, word: bool, operator: bool, named: bool) -> bool
    ensures { result ≡ (((letter && word) && not operator) && named) }
{
    letter && word && !operator && named
}

/// Whether a word can go on with each byte of `name`.
fn all_go_on(name: &[u8]) -> bool
    ensures { result ≡ list_all goes_on name.now }
{
    name.iter().all(|byte| goes_on(*byte))
}

/// Whether `F`, `G` or `X` would be read as an operator at the front of `name`.
fn begins_with_operator(name: &[u8]) -> bool
    ensures { result ≡ begins_with_operator name.now }
{
    let operator = is_operator(byte_at(name, 0));
    let digit = is_digit(byte_at(name, 1));
    is_free(operator, digit)
}

/// Whether an operator is one: no digit follows.
fn is_free(operator: bool, digit: bool) -> bool
    ensures { result ≡ (operator && not digit) }
{
    operator && !digit
}

/// Whether the letter `byte` is an operator.
fn is_operator(byte: u8) -> bool
    ensures { result ≡ is_some (letter_operator byte) }
{
    letter_operator(byte).is_some()
}

/// Whether a word of this kind is a name.
fn is_name(kind: FormulaKind) -> bool
    ensures { result ≡ is_name kind }
{
    matches!(kind, FormulaKind::Name)
}
