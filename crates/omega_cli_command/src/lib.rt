//! What a command line requests: a subcommand with the texts of its options, or what is wrong with them.
#![tactic(auto)]

mod command;
mod format;
mod formula_judge;
mod formulas;
mod implied;
pub mod laws;
mod leniency;
mod limits;
mod mistake;
mod number;
mod one_text;
mod options;
mod other;
mod partition;
mod request;
mod searcher_name;
mod source;
mod stream;
mod subcommand;
mod synthesis;
mod task;
mod tasks;
mod two_texts;
mod values;

pub use command::Command;
pub use format::Format;
pub use formula_judge::FormulaJudge;
pub use formulas::Formulas;
pub use limits::{MOST_BUDGET, MOST_EFFORT, budget_limit_is_stated, effort_limit_is_stated};
pub use mistake::{Mistake, Reason};
pub use omega_game_values::{Player, Refusal};
pub use omega_text::ByteString;
pub use one_text::OneText;
pub use options::{OptionName, Options};
pub use other::Other;
pub use partition::Partition;
pub use request::{Request, request_for};
pub use searcher_name::SearcherName;
pub use source::Source;
pub use stream::Stream;
pub use subcommand::{Subcommand, subcommand_named};
pub use synthesis::Synthesis;
pub use task::Task;
pub use two_texts::TwoTexts;
