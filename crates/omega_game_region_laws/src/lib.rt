//! Regions of parity games. Each node has one winner (determinacy), and a player has one strategy for all of a region.
//! To win is to win all infinite plays.
#![tactic(auto)]

mod plays;
mod regions;

pub use plays::{
    memory_wins_no_more, plays_have_limits, regions_are_won_in_all_plays, winning_means_all_plays,
};
pub use regions::{
    regions_are_apart, regions_are_won_at_once, regions_cover, regions_of_parts, winning_is_kept,
};
