ghost use Rattle.std.specs.Prelude.{◌≡◌, ◌≢◌, IfOk, true};
ghost use Rattle.omega_cli_command.specs.declared.mistake.Mistake.TheVariants as mistake;

use crate::format::Format;
use crate::options::OptionName;
use std::alloc::{AllocError, AllocFailed, Global};
use std::fmt;

/// What is wrong with a subcommand, or with the texts of its options.
#[derive(Clone, Copy)]
pub enum Mistake<'a> {
    /// No subcommand has the name.
    Unknown,
    /// The option has to be given.
    Missing(OptionName),
    /// The text is no value of the option.
    Value(OptionName, &'a str, Reason),
    /// The two options are not given together.
    Conflict(OptionName, OptionName),
    /// The option goes with this format only, and another is given.
    OnlyWith(OptionName, Format),
    /// A request for memory was refused.
    Memory,
}

/// Why a text is no value of an option.
#[derive(Clone, Copy)]
pub enum Reason {
    /// It is empty.
    Empty,
    /// It begins with a sign.
    Sign,
    /// It has a byte that is no digit.
    NotDigits,
    /// The number is over 64 bits.
    TooLarge,
    /// The number is below the least or above the greatest.
    Outside { number: u64, least: u64, most: u64 },
    /// No format has the name.
    NoFormat,
    /// Texts of the format that it names are not drawn.
    NotDrawn,
    /// No searcher has the name.
    NoSearcher,
    /// It is neither `true` nor `false`.
    NoTruth,
}

impl fmt::Display for Reason {
    fn fmt<W: fmt::Write>(&self, f: &mut fmt::Formatter<W>) -> fmt::Result {
        f.write_str(match self {
            Reason::Outside {
                number,
                least,
                most,
            } => {
                return write!(f, "{number} is not in {least}..={most}");
            }
            Reason::Empty => "cannot parse integer from empty string",
            Reason::Sign => "a number is written in digits, without a sign",
            Reason::NotDigits => "invalid digit found in string",
            Reason::TooLarge => "the number is too large",
            Reason::NoFormat => "the formats are pg, hoa and aiger",
            Reason::NotDrawn =>
                "`omega automaton` makes an automaton of a circuit, which can be drawn",
            Reason::NoSearcher => "the searchers are zielonka and tangles",
            Reason::NoTruth => "neither true nor false",
        })
    }
}

impl fmt::Display for Mistake<'_> {
    fn fmt<W: fmt::Write>(&self, f: &mut fmt::Formatter<W>) -> fmt::Result {
        match self {
            Mistake::Unknown => f.write_str("the subcommand is not known"),
            Mistake::Missing(name) => {
                write!(
                    f,
                    "the following required arguments were not provided:\n  {name}"
                )
            }
            Mistake::Value(name, text, reason) => {
                write!(f, "invalid value '{text}' for '{name}': {reason}")
            }
            Mistake::Conflict(one, other) => {
                write!(f, "the argument '{one}' cannot be used with '{other}'")
            }
            Mistake::OnlyWith(name, format) => {
                write!(
                    f,
                    "the argument '{name}' can only be used with '--format {format}'"
                )
            }
            Mistake::Memory => f.write_str("there is no memory"),
        }
    }
}

impl Mistake<'_> {
    ghost use Rattle.omega_cli_command.specs.Usage.{has_usage};

    /// Whether the message ends with the usage line, as the messages of `clap` for conflicting and missing options do.
    pub fn has_usage(&self) -> bool
        ensures usage { result ≡ has_usage self.now }
        ensures memory { result ≡ true → self.now ≢ mistake.Memory }
    {
        matches!(
            self,
            Mistake::Missing(_) | Mistake::Conflict(_, _) | Mistake::OnlyWith(_, _)
        )
    }

    /// Returns the message without a usage line. Want of memory has no text.
    pub fn message(&self, alloc: Global) -> Result<String, AllocError> {
        format!(in alloc; "{self}")
    }

    /// Returns the text of the fault, in the form of those that `clap` writes without a usage line. Want of memory has
    /// none.
    pub fn text(&self, alloc: Global) -> Result<String, AllocError>
        ensures { IfOk result (λ _. self.now ≢ mistake.Memory) }
    {
        match self {
            Mistake::Memory => Err(AllocError),
            _ => { format!(in alloc; "error: {self}\n\nFor more information, try '--help'.\n") }
        }
    }
}
