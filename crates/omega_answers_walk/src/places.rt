//! The places of nodes that are named by their identifiers.
ghost use Rattle.std.specs.Prelude.{◌≡◌, ℕ, List, IfNone, IfOk, IfSome, IsOkUnless};
ghost use Rattle.omega_answers_walk.specs.Walk.{AreNamed};

use omega_game::ForwardGame;
use omega_text::Refusal;
use std::alloc::Global;

/// Returns the places of the nodes with these `identifiers`, or none if no node has one of them.
pub(crate) fn places_of(
    alloc: Global,
    game: &ForwardGame,
    identifiers: &[u32],
) -> Result<Option<Vec<u32>>, Refusal>
    ensures found { IfOk result
        (λ found. IfSome found (λ places. AreNamed game.now identifiers.now places.items)) }
    ensures none { IfOk result (λ found. IfNone found
        ((places : List ℕ) → ¬ AreNamed game.now identifiers.now places)) }
    ensures memory { IsOkUnless result Refusal.Memory }
{
    let mut places = Vec::new(alloc);
    for identifier in identifiers {
        match game.place_of(*identifier) {
            Some(place) => places.push(place)?,
            None => return Ok(None),
        }
    }
    Ok(Some(places))
}
