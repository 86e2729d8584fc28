//! The walk of a game that a text says.
ghost use Rattle.std.specs.Prelude.{◌≡◌, IfErr, IfNone, IfOk, IfSome, IsOkUnless};
ghost use Rattle.omega_game.specs.declared.lasso.Lasso.{Lasso as GameLasso};
ghost use Rattle.omega_text.specs.Cases.{or_memory};
ghost use Rattle.omega_answers_walk.specs.Walk.{IsWalkOf, IsWalkRefusal, Names};

use crate::joining::is_lasso;
use crate::places::places_of;
use crate::{LassoText, read_walk};
use omega_game::{ForwardGame, Lasso, TaskFault};
use omega_text::{Refusal, Seq};
use std::alloc::Global;

/// Returns the walk of `game` that `text` says. Fails with the [Refusal::Text] of the text, or with
/// [TaskFault::BadSolution] if it is no walk of the game.
pub(crate) fn walk_in(alloc: Global, game: &ForwardGame, text: &[u8]) -> Result<Lasso, Refusal>
    ensures lasso { IfOk result (IsWalkOf game.now text.now) }
    ensures refused { IfErr result (or_memory (IsWalkRefusal game.now text.now)) }
{
    let said = read_walk(alloc, text)?;
    match lasso_of(alloc, game, &said)? {
        Some(lasso) => Ok(lasso),
        None => Err(Refusal::Task(TaskFault::BadSolution)),
    }
}

/// Returns the lasso of `game` whose nodes have the identifiers that `said` has, or none if there is none.
fn lasso_of(alloc: Global, game: &ForwardGame, said: &LassoText) -> Result<Option<Lasso>, Refusal>
    ensures found { IfOk result (λ found. IfSome found (Names game.now said.now)) }
    ensures none { IfOk result
        (λ found. IfNone found ((lasso : GameLasso) → ¬ Names game.now said.now lasso)) }
    ensures memory { IsOkUnless result Refusal.Memory }
{
    game.keeps_limits();
    let Some(stem) = places_of(alloc, game, said.stem.as_slice())? else {
        return Ok(None);
    };
    let Some(cycle) = places_of(alloc, game, said.cycle.as_slice())? else {
        return Ok(None);
    };
    if !is_lasso(alloc, game, stem.as_slice(), cycle.as_slice())? {
        return Ok(None);
    }
    Ok(Some(Lasso {
        stem: Seq::from_vec(stem),
        cycle: Seq::from_vec(cycle),
    }))
}
