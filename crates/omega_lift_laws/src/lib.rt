//! Small progress measures (Jurdziński 2000): measures, allowances, lifting runs and answers, and the laws of these.
#![tactic(auto)]

mod allowances;
mod answers;
mod measures;
mod regions;
mod runs;

pub use allowances::{
    allowances_are_least_sufficient, allowances_are_monotone, allowances_are_strict,
    allowances_are_unique, allowances_exceed, allowances_exist,
};
pub use answers::{choices_are_a_strategy, choices_win, won_places_are_in_regions};
pub use measures::{coarsening_forgets, measures_are_ordered, ranks_are_bounded, ranks_rise};
pub use regions::regions_stay_below_top;
pub use runs::{
    places_are_lifted_boundedly, runs_are_bounded, runs_keep_tables, zero_tables_are_tables,
};
