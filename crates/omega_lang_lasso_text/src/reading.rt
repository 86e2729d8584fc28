ghost use Rattle.std.specs.Prelude.{IfErr, IfOk};
ghost use Rattle.omega_lang_lasso_text.specs.Refusing.{IsReadLassoRefusal};
ghost use Rattle.omega_lang_lasso_text.specs.Text.{IsLassoText};

use crate::kind::LassoKind;
use crate::lasso::LassoText;
use crate::reader::LassoReader;
use omega_text::{Refusal, read_text};
use std::alloc::Global;

/// Returns the lasso that the text `bytes` says.
///
/// The text is `stem` with the numbers of edges, perhaps none, and `cycle` with at least one, white space between, as
/// `write_lasso` writes it. Whether an automaton has such edges is not looked at. The bytes are read once, from the
/// left, in linear time.
///
/// Fails with [TextFault::TooLong]. Otherwise fails with [TextFault::Lex] or [TextFault::Number] at the least place, or
/// else with [TextFault::Syntax]: a fault of tokens comes before one of syntax, even at a greater place.
///
/// No text has both a lasso and a refusal, or two of either, and each has one: in `laws`, `lassos_of_texts_are_one`,
/// `lasso_refusals_are_one`, `lassos_are_not_refused`, `lasso_texts_are_read_or_refused`. The place of
/// [TextFault::Syntax] is the subject of `lasso_syntax_faults_are_first`.
pub fn read_lasso(alloc: Global, bytes: &[u8]) -> Result<LassoText, Refusal>
    ensures lasso { IfOk result (IsLassoText bytes.now) }
    ensures refused { IfErr result (IsReadLassoRefusal bytes.now) }
{
    let reader = read_text::<LassoKind, LassoReader>(LassoReader::new(alloc), bytes)?;
    Ok(reader.into_lasso())
}
