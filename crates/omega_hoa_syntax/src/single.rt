//! Parts that are one token.

ghost use Rattle.omega_hoa_syntax.specs.Grammar.{int_row, parameter_row, string_row, value_row, word_row};
ghost use Rattle.omega_hoa_syntax.specs.private.steps.Parts.{is_identifier, is_int};
ghost use Rattle.omega_hoa_syntax.specs.private.steps.Parts.{is_parameter, is_string, is_value};
ghost use Rattle.omega_hoa_syntax.specs.private.steps.Reading.{IsAny, IsKind};
ghost use Rattle.omega_hoa_syntax.specs.private.steps.Joining.{parameter_joins, value_joins};
ghost use Rattle.omega_hoa_syntax.specs.private.steps.Beginnings.{parameter_begun, value_begun};
ghost use Rattle.std.specs.Prelude.{refl};

use crate::header_value::HeaderValue;
use crate::part::Part;
use crate::taking::{copy_of_bytes, string_of, take_int, take_string, take_word};
use omega_hoa_acceptance::Parameter;
use omega_text::{ByteString, HoaKind, Refusal, TextFault, TokenSource};
use std::alloc::Global;

/// An INT.
pub(crate) struct Int;

impl<'a, S: TokenSource<'a, HoaKind>> Part<'a, S> for Int {
    type Value = u32;

    ghost valid = { IsAny };

    ghost written = { int_row };

    ghost first = { is_int };

    ghost next = { IsKind };

    fn begins(kind: HoaKind) -> bool {
        kind == HoaKind::Int
    }

    fn read(_alloc: Global, source: &mut S) -> Result<u32, Refusal> {
        take_int(source)
    }

    ghost begun = { λ it others valid. refl };

    ghost joins = { λ it others. refl };

    ghost follows = { λ kind is. tt };
}

/// An IDENTIFIER.
pub(crate) struct Word;

impl<'a, S: TokenSource<'a, HoaKind>> Part<'a, S> for Word {
    type Value = ByteString;

    ghost valid = { IsAny };

    ghost written = { word_row };

    ghost first = { is_identifier };

    ghost next = { IsKind };

    fn begins(kind: HoaKind) -> bool {
        kind == HoaKind::Identifier
    }

    fn read(alloc: Global, source: &mut S) -> Result<ByteString, Refusal> {
        take_word(alloc, source)
    }

    ghost begun = { λ it others valid. refl };

    ghost joins = { λ it others. refl };

    ghost follows = { λ kind is. tt };
}

/// A STRING.
pub(crate) struct Quoted;

impl<'a, S: TokenSource<'a, HoaKind>> Part<'a, S> for Quoted {
    type Value = ByteString;

    ghost valid = { IsAny };

    ghost written = { string_row };

    ghost first = { is_string };

    ghost next = { IsKind };

    fn begins(kind: HoaKind) -> bool {
        kind == HoaKind::String
    }

    fn read(alloc: Global, source: &mut S) -> Result<ByteString, Refusal> {
        take_string(alloc, source)
    }

    ghost begun = { λ it others valid. refl };

    ghost joins = { λ it others. refl };

    ghost follows = { λ kind is. tt };
}

/// A parameter of `acc-name:`, which is a BOOLEAN, an INT or an IDENTIFIER.
pub(crate) struct NameParameter;

impl<'a, S: TokenSource<'a, HoaKind>> Part<'a, S> for NameParameter {
    type Value = Parameter;

    ghost valid = { IsAny };

    ghost written = { parameter_row };

    ghost first = { is_parameter };

    ghost next = { IsKind };

    fn begins(kind: HoaKind) -> bool {
        matches!(
            kind,
            HoaKind::True | HoaKind::False | HoaKind::Int | HoaKind::Identifier
        )
    }

    fn read(alloc: Global, source: &mut S) -> Result<Parameter, Refusal> {
        let at = source.place();
        let Some(token) = source.take() else {
            return Err(Refusal::Text(TextFault::Syntax { at }));
        };
        match token.kind {
            HoaKind::True => Ok(Parameter::Boolean(true)),
            HoaKind::False => Ok(Parameter::Boolean(false)),
            HoaKind::Int => Ok(Parameter::Number(token.value)),
            HoaKind::Identifier => Ok(Parameter::Word(copy_of_bytes(alloc, token.text)?)),
            _ => Err(Refusal::Text(TextFault::Syntax { at })),
        }
    }

    ghost begun = { parameter_begun };

    ghost joins = { parameter_joins };

    ghost follows = { λ kind is. tt };
}

/// A value of an unknown header, which is a BOOLEAN, an INT, a STRING or an IDENTIFIER.
pub(crate) struct UnknownValue;

impl<'a, S: TokenSource<'a, HoaKind>> Part<'a, S> for UnknownValue {
    type Value = HeaderValue;

    ghost valid = { IsAny };

    ghost written = { value_row };

    ghost first = { is_value };

    ghost next = { IsKind };

    fn begins(kind: HoaKind) -> bool {
        matches!(
            kind,
            HoaKind::True | HoaKind::False | HoaKind::Int | HoaKind::String | HoaKind::Identifier
        )
    }

    fn read(alloc: Global, source: &mut S) -> Result<HeaderValue, Refusal> {
        let at = source.place();
        let Some(token) = source.take() else {
            return Err(Refusal::Text(TextFault::Syntax { at }));
        };
        match token.kind {
            HoaKind::True => Ok(HeaderValue::Boolean(true)),
            HoaKind::False => Ok(HeaderValue::Boolean(false)),
            HoaKind::Int => Ok(HeaderValue::Number(token.value)),
            HoaKind::String => Ok(HeaderValue::Text(string_of(alloc, token.text)?)),
            HoaKind::Identifier => Ok(HeaderValue::Word(copy_of_bytes(alloc, token.text)?)),
            _ => Err(Refusal::Text(TextFault::Syntax { at })),
        }
    }

    ghost begun = { value_begun };

    ghost joins = { value_joins };

    ghost follows = { λ kind is. tt };
}
