//! Laws of the texts of walks, for callers' proofs. A call does nothing and states one law.

ghost use Rattle.omega_answers_walk.specs.WalkTextLaws.{LassosStandAtTheirPlaces, WrittenWalksAreRead};

use omega_lang_lasso_text::laws::spaced_lassos_are_read;

/// States that the lasso text in a walk's text is as long as that.
pub fn lassos_stand_at_their_places()
    ensures { LassosStandAtTheirPlaces }
{}

/// States that the written form of a walk of a game, with names or without, is read as the lasso of its identifiers,
/// also if `no` stands before it, if it keeps the limit of texts.
pub fn written_walks_are_read()
    ensures { WrittenWalksAreRead }
{
    spaced_lassos_are_read();
    lassos_stand_at_their_places();
}
