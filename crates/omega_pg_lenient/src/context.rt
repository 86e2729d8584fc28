ghost use Rattle.std.specs.Prelude.{◌≡◌};
ghost use Rattle.omega_text.specs.pg.Forms.{is_name_byte};
ghost use Rattle.omega_pg_lenient.specs.Plain.{after_outside, after_slash, is_closed};
ghost use Rattle.omega_pg_lenient.specs.Plain.{shown_in_name, shown_outside};

use crate::bytes::{byte_at, tail};

/// Where a lenient text is between two of its bytes.
#[derive(Clone, Copy)]
pub(crate) enum Context {
    /// Outside names and comments.
    Outside,
    /// After the quote that begins a name.
    Name,
    /// In a comment that ends with its line.
    Line,
    /// Between the `/` and the `*` that begin a comment.
    Opening,
    /// In a comment that `*/` ends.
    Block,
    /// Between the `*` and the `/` that end a comment.
    Closing,
    /// After the `/` of a comment that nothing ends. The text has its fault there.
    Unclosed,
}

impl Context {
    ghost use Rattle.omega_pg_lenient.specs.Plain.{after, shown};

    /// Returns the context after `byte`, which `rest` follows.
    #[inline(always)]
    pub(crate) fn after(self, byte: u8, rest: &[u8]) -> Context
        ensures { result ≡ after self byte rest.now }
    {
        match self {
            Context::Outside => after_outside(byte, rest),
            Context::Name => {
                if byte == b'"' {
                    Context::Outside
                } else {
                    Context::Name
                }
            }
            Context::Line => {
                if byte == b'\n' {
                    Context::Outside
                } else {
                    Context::Line
                }
            }
            Context::Opening => Context::Block,
            Context::Block => {
                if byte == b'*' && byte_at(rest, 0) == b'/' {
                    Context::Closing
                } else {
                    Context::Block
                }
            }
            Context::Closing => Context::Outside,
            Context::Unclosed => Context::Unclosed,
        }
    }

    /// Returns what stands for `byte` in the plain text, if `next` is the context after it.
    #[inline(always)]
    pub(crate) fn shown_byte(self, next: Context, byte: u8) -> u8
        ensures { result ≡ shown self next byte }
    {
        match self {
            Context::Outside => shown_outside(next, byte),
            Context::Name => shown_in_name(byte),
            Context::Line | Context::Opening | Context::Block | Context::Closing => b' ',
            Context::Unclosed => byte,
        }
    }
}

/// Returns the context after `byte` outside names and comments, which `rest` follows.
#[inline(always)]
fn after_outside(byte: u8, rest: &[u8]) -> Context
    ensures { result ≡ after_outside byte rest.now }
{
    if byte == b'"' {
        Context::Name
    } else if byte == b'#' {
        Context::Line
    } else if byte == b'/' {
        after_slash(rest)
    } else {
        Context::Outside
    }
}

/// Returns the context after a slash outside names and comments, which `rest` follows.
fn after_slash(rest: &[u8]) -> Context
    ensures { result ≡ after_slash rest.now }
{
    let next = byte_at(rest, 0);
    if next == b'/' {
        return Context::Line;
    }
    if next != b'*' {
        return Context::Outside;
    }
    if is_closed(tail(rest, 1)) {
        Context::Opening
    } else {
        Context::Unclosed
    }
}

/// Whether `*/` is somewhere in `bytes`.
///
/// It is found where the comment ends, and no later call looks at these bytes. If it is not found, no call follows.
fn is_closed(bytes: &[u8]) -> bool
    ensures { result ≡ is_closed bytes.now }
{
    let mut at = 0;
    while at < bytes.len() {
        if bytes[at] == b'*' && byte_at(bytes, at + 1) == b'/' {
            return true;
        }
        at += 1;
    }
    false
}

/// Returns what stands for a `byte` outside names and comments, if `next` is the context after it.
fn shown_outside(next: Context, byte: u8) -> u8
    ensures { result ≡ shown_outside next byte }
{
    match next {
        Context::Line | Context::Opening => b' ',
        Context::Outside | Context::Name | Context::Block | Context::Closing | Context::Unclosed =>
            byte,
    }
}

/// Returns what stands for a `byte` after the quote that begins a name.
fn shown_in_name(byte: u8) -> u8
    ensures { result ≡ shown_in_name byte }
{
    if is_name_byte(byte) || byte == b'"' || byte == b'\n' {
        byte
    } else {
        b'?'
    }
}

/// Whether a name of a game may have `byte`.
fn is_name_byte(byte: u8) -> bool
    ensures { result ≡ is_name_byte byte }
{
    byte >= 32 && byte <= 126 && byte != b'"'
}
