//! What a formula of linear temporal logic demands at an index: of this index, and of the next one.
//!
//! A *demand* says of a node of a formula that it holds, or that it does not. Its [Shape] says what it comes to by
//! demands of smaller nodes. A [Term] is what an edge of an automaton fixes: literals, demands on the next index, and
//! demands whose goal is postponed. The laws say that runs of such edges show what their words satisfy
//! ([traces_are_sound]), and that runs along edges that fit what is true postpone no goal for ever
//! ([good_terms_accept]).
#![tactic(auto)]

mod bits;
mod combination;
mod cube;
mod items;
mod laws;
mod shape;
mod term;

pub use bits::{bits_of_both, has_bit, has_bits_of, have_common_bit, with_bit};
pub use combination::Combination;
pub use cube::Cube;
pub use items::{has_item, has_items, items_of_both};
pub use laws::{demands_are_shown, good_terms_accept, traces_are_sound, truths_follow_shapes};
pub use shape::Shape;
pub use term::Term;
