//! Laws of products and complements: the words that they accept, by numbers of propositions and by their names. No code
//! that runs.
#![tactic(auto)]

mod complements;
mod graphs;
mod named_words;
mod products;

pub use complements::{
    complements_are_apart, complements_are_one, complements_are_writable, complements_cover,
    complements_part_by_name,
};
pub use graphs::graphs_are_of_products;
pub use named_words::{words_are_named, words_seen_alike_are_one};
pub use products::{products_are_one, products_meet, products_meet_by_name};
