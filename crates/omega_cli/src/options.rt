//! The options of the subcommands. Their texts are judged after `clap`.
ghost use Rattle.std.specs.Prelude.{◌≡◌, false};
ghost use Rattle.clap.specs.Words.{rule_of};
ghost use Rattle.omega_cli.specs.private.building.Building.{rule_for};

use clap::{Arg, ArgAction};
use std::alloc::Global;

/// An option, or the operand, as help shows it.
pub struct OptionHelp {
    /// The name by which it is found, and which an option has after its two dashes.
    pub name: &'static str,
    pub value: Value,
    pub help: &'static str,
}

/// What follows the name of an option. A text has the name that help gives it.
pub enum Value {
    /// Nothing: it is a flag, which is not set unless it is given.
    None,
    /// A flag that also has this letter, after one dash.
    Letter(char),
    /// A flag that has this name after its two dashes, in place of the one by which it is found.
    Long(&'static str),
    /// A text. The option may be left out.
    Optional(&'static str),
    /// A text. The option may be left out, and also has this letter, after one dash.
    OptionalLettered(char, &'static str),
    /// A text. The option may be left out or given several times, and also has this letter, after one dash.
    OptionalRepeated(char, &'static str),
    /// A text. The option may be left out, and has this name after its two dashes, in place of the one by which it is
    /// found.
    OptionalAs(&'static str, &'static str),
    /// A text. The option has to be given.
    Required(&'static str),
    /// A text. The option has to be given, may be given several times, and also has this letter, after one dash.
    RequiredRepeated(char, &'static str),
    /// A text. The option has to be given, and has this name after its two dashes, in place of the one by which it is
    /// found.
    RequiredAs(&'static str, &'static str),
    /// The operand: a text without an option's name, which may be left out.
    Operand(&'static str),
}

impl OptionHelp {
    /// Returns the option as `clap` takes it.
    pub fn arg<'a>(&self, alloc: Global) -> Arg<'a>
        ensures rule { rule_of result ≡ rule_for self.now }
        ensures local { result.global ≡ false }
    {
        let arg = Arg::new(alloc, self.name).help(self.help);
        match self.value {
            Value::None => arg.long(self.name).action(ArgAction::SetTrue),
            Value::Letter(letter) => {
                arg.long(self.name).short(letter).action(ArgAction::SetTrue)
            }
            Value::Long(name) => arg.long(name).action(ArgAction::SetTrue),
            Value::Optional(name) => arg.long(self.name).value_name(name),
            Value::OptionalLettered(letter, name) => {
                arg.long(self.name).short(letter).value_name(name)
            }
            Value::OptionalRepeated(letter, name) => {
                arg.long(self.name)
                    .short(letter)
                    .value_name(name)
                    .action(ArgAction::Append)
            }
            Value::OptionalAs(long, name) => arg.long(long).value_name(name),
            Value::Required(name) => arg.long(self.name).value_name(name).required(true),
            Value::RequiredRepeated(letter, name) => {
                arg.long(self.name)
                    .short(letter)
                    .value_name(name)
                    .required(true)
                    .action(ArgAction::Append)
            }
            Value::RequiredAs(long, name) => arg.long(long).value_name(name).required(true),
            Value::Operand(name) => arg.value_name(name),
        }
    }
}

/// The operand that names the file of the input.
pub const FILE: OptionHelp = OptionHelp {
    name: "file",
    value: Value::Operand("FILE"),
    help: "The file to read; - or none for standard input",
};

/// The flag that asks for what is said of a refusal besides its line.
pub const VERBOSE: OptionHelp = OptionHelp {
    name: "verbose",
    value: Value::Letter('v'),
    help: "Say more of a refusal on standard error: which text, where, and what is to be mended",
};

/// The option that says what kind of text is read.
pub const FORMAT: OptionHelp = OptionHelp {
    name: "format",
    value: Value::Optional("FORMAT"),
    help: "The kind of text: pg, a game in the text of PGSolver; hoa, omega-automata in the Hanoi format; aiger, a circuit; if it is left out, an option of one format alone says it, or the beginning of a FILE",
};

/// The option that names the file of a game.
pub const GAME: OptionHelp = OptionHelp {
    name: "game",
    value: Value::Optional("FILE"),
    help: "Judge a solution of the game in this file",
};

/// The option that names the file of an automaton.
pub const AUTOMATON: OptionHelp = OptionHelp {
    name: "automaton",
    value: Value::Optional("FILE"),
    help: "Judge a lasso of the automaton in this file",
};

/// The option that lists the names of the propositions that the system controls.
pub const OUTS: OptionHelp = OptionHelp {
    name: "outs",
    value: Value::Optional("NAMES"),
    help: "With --formula, the names that the system controls, with commas between them",
};

/// The option that lists the names of the propositions that the environment controls.
pub const INS: OptionHelp = OptionHelp {
    name: "ins",
    value: Value::Optional("NAMES"),
    help: "With --formula, the names that the environment controls, with commas between them",
};

/// The option that names the file of another automaton.
pub const WITH: OptionHelp = OptionHelp {
    name: "with",
    value: Value::Required("FILE"),
    help: "The file with the other automaton",
};

/// The flag that asks for the word of a lasso.
pub const WORD: OptionHelp = OptionHelp {
    name: "word",
    value: Value::None,
    help: "Write the word that the lasso accepts as a third line",
};

/// The option that says whose game is solved.
pub const PLAYER: OptionHelp = OptionHelp {
    name: "player",
    value: Value::Optional("P"),
    help: "Solve for this player alone, 0 or 1",
};

/// The flag that asks why a solution is not right.
pub const EXPLAIN: OptionHelp = OptionHelp {
    name: "explain",
    value: Value::None,
    help: "Write after `no` a walk on which a player loses, or what is wrong with the lasso",
};

/// The option that bounds the work.
pub const BUDGET: OptionHelp = OptionHelp {
    name: "budget",
    value: Value::Optional("N"),
    help: "Stop after N lifts, 0 to 1099511627776, which is also the default",
};

/// The option that names the file of a solution.
pub const SOLUTION: OptionHelp = OptionHelp {
    name: "solution",
    value: Value::Optional("FILE"),
    help: "Draw the solution of the game in this file too",
};

/// The option that names the file of a walk.
pub const WALK: OptionHelp = OptionHelp {
    name: "walk",
    value: Value::Optional("FILE"),
    help: "Draw the walk in this file too, which `omega verify --explain` wrote of the game",
};

/// The flag that asks what the colours of a drawing mean.
pub const LEGEND: OptionHelp = OptionHelp {
    name: "legend",
    value: Value::None,
    help: "Draw a legend of the solution or of the walk: what the colours and bold edges mean",
};

/// The flag that asks for a lasso to be drawn.
pub const LASSO: OptionHelp = OptionHelp {
    name: "lasso",
    value: Value::None,
    help: "Draw an accepting lasso of the automaton too",
};

/// The flag that asks for an answer for each automaton of a stream.
pub const STREAM: OptionHelp = OptionHelp {
    name: "stream",
    value: Value::None,
    help: "Answer for each automaton of a stream, one after the other",
};

/// The option that says how many automata a stream is to have at least.
pub const AT_LEAST: OptionHelp = OptionHelp {
    name: "at-least",
    value: Value::Optional("N"),
    help: "With --stream, end with status 6 if there are fewer than N automata, 0 to 2147483647",
};

/// The flag that asks for games to be read as other tools write them.
pub const LENIENT: OptionHelp = OptionHelp {
    name: "lenient",
    value: Value::None,
    help: "Read a game with comments, `start N;`, dead ends, names of any bytes, or no last `;`",
};

/// The flag that asks for progress to be reported.
pub const PROGRESS: OptionHelp = OptionHelp {
    name: "progress",
    value: Value::None,
    help: "Report on standard error, every 67108864 lifts, how many were made",
};
