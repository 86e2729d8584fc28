ghost use Rattle.std.specs.Prelude.{◌≡◌};
ghost use Rattle.omega_text.specs.Bytes.{is_white};
ghost use Rattle.omega_pg_lenient.specs.SolutionLines.{after_byte, after_quote, counted, is_last_name};
ghost use Rattle.omega_pg_lenient.specs.SolutionLines.{is_no_choice, is_passed, next_black};

use crate::bytes::{byte_at, tail};

/// Where a line of a plain solution text is between two of its bytes.
#[derive(Clone, Copy)]
pub(crate) enum LineContext {
    /// Outside numbers and names.
    Between,
    /// In a number, or after its last digit.
    Number,
    /// In a name that stays.
    Name,
    /// In a name that is passed over.
    Passed,
    /// Between the `-` and the `1` of a `-1` that is passed over.
    Choice,
}

/// Where a line is, and how many numbers of it have begun.
#[derive(Clone, Copy)]
pub(crate) struct LinePlace {
    pub(crate) context: LineContext,
    /// At most 3, which stands for all that are more.
    pub(crate) numbers: u8,
}

impl LinePlace {
    ghost use Rattle.omega_pg_lenient.specs.SolutionLines.{place_after, shown_in_line};

    /// Returns the place after `byte`, which `rest` follows.
    #[inline(always)]
    pub(crate) fn after(self, byte: u8, rest: &[u8]) -> LinePlace
        ensures { result ≡ place_after self.context self.numbers byte rest.now }
    {
        let context = match self.context {
            LineContext::Between | LineContext::Number => {
                return after_byte(self.context, self.numbers, byte, rest);
            }
            LineContext::Name => {
                if byte == b'"' {
                    LineContext::Between
                } else {
                    LineContext::Name
                }
            }
            LineContext::Passed => {
                if byte == b'"' {
                    LineContext::Between
                } else {
                    LineContext::Passed
                }
            }
            LineContext::Choice => LineContext::Between,
        };
        LinePlace {
            context,
            numbers: self.numbers,
        }
    }

    /// Returns what stands for `byte` in the bare text, if `next` is the place after it.
    #[inline(always)]
    pub(crate) fn shown_byte(self, next: LinePlace, byte: u8) -> u8
        ensures { result ≡ shown_in_line self.context next.context byte }
    {
        if is_passed(self.context) || is_passed(next.context) {
            b' '
        } else {
            byte
        }
    }
}

/// Whether a byte before `context`, or after it, is passed over.
fn is_passed(context: LineContext) -> bool
    ensures { result ≡ is_passed context }
{
    match context {
        LineContext::Passed | LineContext::Choice => true,
        LineContext::Between | LineContext::Number | LineContext::Name => false,
    }
}

/// Returns the place after `byte` outside names, which `rest` follows.
fn after_byte(context: LineContext, numbers: u8, byte: u8, rest: &[u8]) -> LinePlace
    ensures { result ≡ after_byte context numbers byte rest.now }
{
    if byte.is_ascii_digit() {
        LinePlace {
            context: LineContext::Number,
            numbers: numbers_begun(context, numbers),
        }
    } else if byte == b';' {
        LinePlace {
            context: LineContext::Between,
            numbers: 0,
        }
    } else if byte == b'"' {
        LinePlace {
            context: after_quote(numbers, rest),
            numbers,
        }
    } else if byte == b'-' && numbers == 2 && is_no_choice(rest) {
        LinePlace {
            context: LineContext::Choice,
            numbers,
        }
    } else {
        LinePlace {
            context: LineContext::Between,
            numbers,
        }
    }
}

/// Returns how many numbers have begun with a digit after `context`.
fn numbers_begun(context: LineContext, numbers: u8) -> u8
    ensures { result ≡ counted context numbers }
{
    match context {
        LineContext::Between => { if numbers < 3 { numbers + 1 } else { 3 } }
        LineContext::Number | LineContext::Name | LineContext::Passed | LineContext::Choice => {
            numbers
        }
    }
}

/// Returns the context after a quote that begins a name, which `rest` follows.
fn after_quote(numbers: u8, rest: &[u8]) -> LineContext
    ensures { result ≡ after_quote numbers rest.now }
{
    if numbers > 1 && is_last_name(rest) {
        LineContext::Passed
    } else {
        LineContext::Name
    }
}

/// Whether `rest`, which follows a `-`, makes `-1` of it, with `;` or a name next.
fn is_no_choice(rest: &[u8]) -> bool
    ensures { result ≡ is_no_choice rest.now }
{
    if byte_at(rest, 0) != b'1' {
        return false;
    }
    let next = next_black(tail(rest, 1));
    next == b';' || next == b'"'
}

/// Whether the name whose first quote `bytes` follow ends in its line, with `;` next.
fn is_last_name(bytes: &[u8]) -> bool
    ensures { result ≡ is_last_name bytes.now }
{
    let mut at = 0;
    while at < bytes.len() {
        if bytes[at] == b'"' {
            return next_black(tail(bytes, at + 1)) == b';';
        }
        if bytes[at] == b'\n' {
            return false;
        }
        at += 1;
    }
    false
}

/// Returns the first byte that is not white space, or 0 if there is none.
fn next_black(bytes: &[u8]) -> u8
    ensures { result ≡ next_black bytes.now }
{
    let mut at = 0;
    while at < bytes.len() {
        if !is_white(bytes[at]) {
            return bytes[at];
        }
        at += 1;
    }
    0
}

/// Whether `byte` is white space.
fn is_white(byte: u8) -> bool
    ensures { result ≡ is_white byte }
{
    byte == b' ' || byte == b'\t' || byte == b'\n' || byte == b'\r'
}
