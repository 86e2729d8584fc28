ghost use Rattle.std.specs.Prelude.{IfErr, IfOk};
ghost use Rattle.omega_answers_walk.specs.Text.{IsReadWalkRefusal, IsWalkText};

use crate::covering::lasso_in;
use omega_lang_lasso_text::{LassoText, Refusal, read_lasso};
use std::alloc::Global;

/// Returns the lasso that the text `bytes` says, by the identifiers of the nodes of its stem and of its cycle.
///
/// The text is that of a lasso. A line `no` and then the line of a player may stand before it. Each of both has the
/// form in which `verify --explain` writes it. A name in double quotes may stand at any place, as white space may. Its
/// bytes are those that names of games have. Whether a game has such a walk is not looked at.
///
/// Linear time, and memory as for the text again. Fails as [read_lasso] does, at places of `bytes`: of what stands in
/// quotes nothing is refused.
pub fn read_walk(alloc: Global, bytes: &[u8]) -> Result<LassoText, Refusal>
    ensures lasso { IfOk result (IsWalkText bytes.now) }
    ensures refused { IfErr result (IsReadWalkRefusal bytes.now) }
{
    let text = lasso_in(alloc, bytes)?;
    read_lasso(alloc, text.as_slice())
}
