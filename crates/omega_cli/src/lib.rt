//! The command line: what its words ask the program for.
//!
//! The command line as `clap` knows it: subcommands, options and the texts of help.
#![tactic(auto)]

mod accepts;
mod automaton;
mod canon;
mod check;
mod complement;
mod contained;
mod draw;
mod empty;
mod equal;
mod found;
mod game;
mod join;
mod ltl;
mod meet;
mod options;
mod program;
mod realize;
mod satisfies;
mod show;
mod solve;
mod subcommand;
mod trim;
mod verify;
mod version;
mod words;

pub use omega_cli_command::{
    Command, Format, Mistake, OneText, OptionName, Options, Other, Player, Reason, Refusal,
    Request, Source, Stream, Subcommand, Task, TwoTexts, request_for,
};
pub use program::{fault_text, matches_of};
pub use words::read_words;
