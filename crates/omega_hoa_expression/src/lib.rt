//! What labels and acceptance formulas share: their limits, the tokens that are passed, what is pending while one is
//! read, nodes in postfix order, and texts that are made from their end.
#![tactic(auto)]

mod backward;
mod depth;
mod depths;
mod leftward;
mod limits;
mod names;
mod passing;
mod pending;
mod postfix;
mod signs;

pub use backward::Backward;
pub use depth::{counted_deeper, deeper};
pub use depths::Depths;
pub use limits::{
    MOST_BUCHI_SETS, MOST_DEPTH, MOST_MENTIONED, MOST_SIZE, PAST_DEPTH, PAST_SIZE,
    expression_limits_are_stated,
};
pub use names::{bytes_after, first_bytes};
pub use passing::{is_passed, number, pass, passed_number};
pub use pending::{Pending, PendingStack};
pub use postfix::{append, fitted_copy, singleton, with_all, with_one};
