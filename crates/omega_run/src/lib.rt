//! The program's work, over any input, output and standard error: what a command line requests is done.
//!
//! Numbers of refusals are those of `Refusal`; docs/formats.md says when each comes.
#![tactic(auto)]

mod answering;
mod causes;
mod circuit_form;
mod files;
mod format;
mod formulas;
mod held;
mod held_text;
mod laws;
mod lenient;
mod obeying;
mod one_text;
mod progress;
mod reporting;
mod running;
mod searching;
mod stream;
mod synthesis;
mod text_kind;
mod texts;
mod two_texts;
mod writing;

pub use held_text::HeldText;
pub use laws::budgets_are_of_solvers;
pub use obeying::obey;
pub use omega_cli_command::{
    Command, Format, FormulaJudge, Formulas, OneText, Other, Partition, Player, Request,
    SearcherName, Source, Stream, Synthesis, Task, TwoTexts,
};
pub use omega_io::{
    Exit, FromRead, HostFiles, Input, InputFiles, Output, Reason, Refusal, Refused, ToWrite,
    Unread, exit_code, refusal_line,
};
pub use running::run_command;
