ghost use Rattle.std.specs.Prelude.{◌≡◌, IfErr, IfOk};
ghost use Rattle.omega_lang_lasso_text.specs.Lines.{IsLassoLines, IsReadLassoLinesRefusal};
ghost use Rattle.omega_lang_lasso_text.specs.Lines.{ends_lasso, lasso_part};

use crate::lasso::LassoText;
use crate::reading::read_lasso;
use omega_text::{MOST_TEXT, Refusal, TextFault};
use std::alloc::Global;

/// Returns the lasso that `bytes` say in the form in which `empty` writes it, with lines of its word and of its run or
/// without.
///
/// The text is read as by [read_lasso] up to the end of the first line after which a line begins with `word ` or
/// `run `. What comes after that is passed over: a name in quotes may go on over further lines. Linear time, and no
/// memory besides the lasso's.
///
/// Fails with [TextFault::TooLong] by the length of all `bytes`. Otherwise fails as [read_lasso] does, of what stands
/// before the word and the run.
pub fn read_lasso_lines(alloc: Global, bytes: &[u8]) -> Result<LassoText, Refusal>
    ensures lasso { IfOk result (IsLassoLines bytes.now) }
    ensures refused { IfErr result (IsReadLassoLinesRefusal bytes.now) }
{
    if bytes.len() > MOST_TEXT {
        return Err(Refusal::Text(TextFault::TooLong));
    }
    read_lasso(alloc, lasso_part(bytes))
}

/// Returns the bytes up to the end of the first line that a line of a word or of a run follows, or all of them.
fn lasso_part(bytes: &[u8]) -> &[u8]
    ensures { result.now ≡ lasso_part bytes.now }
{
    for at in 0..bytes.len() {
        if ends_lasso(&bytes[at..]) {
            return &bytes[..at + 1];
        }
    }
    bytes
}

/// Whether a line ends at the first byte, and the next one is that of a word or of a run.
fn ends_lasso(bytes: &[u8]) -> bool
    ensures { result ≡ ends_lasso bytes.now }
{
    bytes.starts_with(b"\nword ") || bytes.starts_with(b"\nrun ")
}
