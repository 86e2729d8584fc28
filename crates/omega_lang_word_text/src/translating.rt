//! Tokens of words become tokens of label expressions: names are numbered, and `0` and `1` are constants.

ghost use Rattle.std.specs.Prelude.{◌≡◌, Some, map, option_map, slice_get, IfOk, IsOkUnless, OnOk};
ghost use Rattle.std.specs.List.{AllZip};
ghost use Rattle.omega_text.specs.Forms.{between_quotes};
ghost use Rattle.omega_text.specs.Lexeme.{lexeme_of};
ghost use Rattle.omega_lang_word_text.specs.Reading.{IsReadAs, kind_as, name_of};
ghost use Rattle.omega_lang_word_text.specs.Reading.{names_of, number_as, word_as};
ghost use Rattle.omega_lang_word_text.specs.private.Names.{names_in, with_name, with_some};

use indexmap::IndexSet;
use omega_lang_lasso_word::stands_bare;
use omega_text::{ByteString, HoaKind, Refusal, Token};
use std::alloc::Global;

/// The tokens of a word as a reader of labels takes them, and its names.
#[derive(Drop)]
pub(crate) struct Translation<'a> {
    pub(crate) tokens: Vec<Token<'a, HoaKind>>,
    /// The names in the order of their first occurrences, each once.
    pub(crate) names: Vec<ByteString>,
}

/// Returns what the tokens of a word are read as, and its names.
pub(crate) fn translation_of<'a>(
    alloc: Global,
    own: &[Token<'a, HoaKind>],
) -> Result<Translation<'a>, Refusal>
    ensures names { IfOk result (λ made. made.names.items ≡ names_of (map lexeme_of own.now)) }
    ensures tokens { IfOk result (λ made. AllZip (IsReadAs (names_of (map lexeme_of own.now)))
        (map lexeme_of own.now) (map lexeme_of made.tokens.items)) }
    ensures memory { IsOkUnless result Refusal.Memory }
{
    let mut names = IndexSet::new(alloc);
    let mut tokens = Vec::new(alloc);
    for token in own {
        let read = translated_token(&mut names, token)?;
        tokens.push(read)?;
    }
    let names = copy_of_names(alloc, names.as_slice())?;
    Ok(Translation { tokens, names })
}

/// Copies `names`.
fn copy_of_names(alloc: Global, names: &[&[u8]]) -> Result<Vec<ByteString>, Refusal>
    ensures same { IfOk result (λ same. same.items ≡ names_in names.now) }
    ensures memory { IsOkUnless result Refusal.Memory }
{
    let mut same = Vec::with_capacity(alloc, names.len())?;
    for name in names {
        same.push(ByteString::from_slice(alloc, name)?)?;
    }
    Ok(same)
}

/// Returns what `token` is read as. If it is a name, that is added to `names`.
fn translated_token<'a>(
    names: &mut IndexSet<&'a [u8]>,
    token: &Token<'a, HoaKind>,
) -> Result<Token<'a, HoaKind>, Refusal>
    ensures names { OnOk result (names_in names.new.keys
        ≡ with_name (names_in names.old.keys) (name_of (lexeme_of token.now))) }
    ensures token { IfOk result
        (λ read. IsReadAs (names_in names.new.keys) (lexeme_of token.now) (lexeme_of read)) }
    ensures memory { IsOkUnless result Refusal.Memory }
{
    match name_of(token) {
        Some(name) => {
            let number = number_of(names, name)?;
            Ok(Token {
                text: token.text,
                span: token.span,
                value: number,
                kind: HoaKind::Int,
            })
        }
        None => Ok(Token {
            text: token.text,
            span: token.span,
            value: 0,
            kind: kind_as(token),
        }),
    }
}

/// Returns the number of `name` among `names`, to which it is added if it is not among them. Fails with
/// [Refusal::Memory] too if the number does not fit in 32 bits; no text has so many names.
fn number_of<'a>(names: &mut IndexSet<&'a [u8]>, name: &'a [u8]) -> Result<u32, Refusal>
    ensures names { OnOk result
        (names_in names.new.keys ≡ with_some (names_in names.old.keys) name.now) }
    ensures number { IfOk result
        (λ number. slice_get (names_in names.new.keys) number ≡ Some name.now) }
    ensures memory { IsOkUnless result Refusal.Memory }
{
    let (number, _) = names.insert_full(name)?;
    if number > u32::MAX as usize {
        return Err(Refusal::Memory);
    }
    Ok(number as u32)
}

/// Returns the name that `token` is, if it is one.
fn name_of<'a>(token: &Token<'a, HoaKind>) -> Option<&'a [u8]>
    ensures { option_map (λ name. name.now) result ≡ name_of (lexeme_of token.now) }
{
    match token.kind {
        HoaKind::Identifier => {
            if stands_bare(token.text) {
                Some(token.text)
            } else {
                None
            }
        }
        HoaKind::String => Some(between_quotes(token.text)),
        _ => None,
    }
}

/// Returns the bytes of a string between its quotes.
fn between_quotes(quoted: &[u8]) -> &[u8]
    ensures { result.now ≡ between_quotes quoted.now }
{
    if quoted.len() < 2 {
        return &[];
    }
    &quoted[1..quoted.len() - 1]
}

/// Returns the kind that a token without a name is read as.
fn kind_as(token: &Token<'_, HoaKind>) -> HoaKind
    ensures { result ≡ kind_as token.now.kind token.now.value token.now.text.now }
{
    match token.kind {
        HoaKind::Identifier => word_as(token.text),
        HoaKind::Int => number_as(token.value),
        HoaKind::Not
        | HoaKind::And
        | HoaKind::Or
        | HoaKind::OpenParenthesis
        | HoaKind::CloseParenthesis
        | HoaKind::OpenBrace
        | HoaKind::CloseBrace => token.kind,
        _ => HoaKind::Abort,
    }
}

/// Returns the kind that an identifier without a name is read as.
fn word_as(text: &[u8]) -> HoaKind
    ensures { result ≡ word_as text.now }
{
    if text == b";".as_slice() {
        HoaKind::End
    } else if text == b"cycle".as_slice() {
        HoaKind::Body
    } else {
        HoaKind::Abort
    }
}

/// Returns the kind that a number is read as.
fn number_as(value: u32) -> HoaKind
    ensures { result ≡ number_as value }
{
    match value {
        0 => HoaKind::False,
        1 => HoaKind::True,
        _ => HoaKind::Abort,
    }
}
