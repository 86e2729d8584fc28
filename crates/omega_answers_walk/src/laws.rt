//! Laws of explanations, for callers' proofs. A call does nothing and states one law.

ghost use Rattle.omega_answers_walk.specs.Laws.{ExplanationsAreWalks};

use crate::walk_text_laws::written_walks_are_read;

/// States that what `verify --explain` writes, with names or without, is read as a walk of the game, the one that it
/// explains by, if it keeps the limit of texts.
pub fn explanations_are_walks()
    ensures { ExplanationsAreWalks }
{
    written_walks_are_read();
}
