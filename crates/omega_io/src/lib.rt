//! Inputs and outputs of the program, with their failures counted and why they came, and reports of how it ended:
//! answers of yes or no, exit statuses, the lines of refusals, and the text or file that a refusal is about.
//!
//! docs/formats.md says when each `Refusal` comes.
#![tactic(auto)]

mod answer;
mod exit;
mod failure;
mod input;
mod input_files;
mod lines;
mod output;
mod reading;
mod reason;
mod refusal_text;
mod refused;
mod unread;
mod writing;

pub use answer::Answer;
pub use exit::{Exit, exit_code};
pub use failure::{Failure, failure_of};
pub use input::{FromRead, Input};
pub use input_files::{HostFiles, InputFiles};
pub use lines::{file_lines, lines_in, stream_lines};
pub use omega_text::Refusal;
pub use output::{Output, ToWrite};
pub use reading::{PIECE, read_all, read_piece};
pub use reason::Reason;
pub use refusal_text::refusal_line;
pub use refused::{Refused, Which};
pub use unread::Unread;
pub use writing::{tell, write_text};
