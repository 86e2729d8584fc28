ghost use Rattle.std.specs.Prelude.{◌≡◌, option_map};
ghost use Rattle.omega_cli_command.specs.Options.{text_of};
ghost use Rattle.omega_cli_command.specs.declared.options.OptionName.TheVariants as name;

use std::fmt;

/// The options of all subcommands, and the operand.
#[derive(Clone, Copy)]
pub enum OptionName {
    Format,
    Player,
    From,
    Budget,
    Search,
    By,
    Effort,
    Game,
    Automaton,
    Specification,
    CounterStrategy,
    Explain,
    Names,
    Word,
    /// The option `--word` with a text, in place of the flag.
    WordText,
    /// The flag `--some`.
    ForSome,
    Formula,
    Outs,
    Ins,
    Negated,
    Deterministic,
    Status,
    With,
    Trim,
    In,
    To,
    Controller,
    /// The flag `--game`, which names no file.
    AsGame,
    Aiger,
    Binary,
    Lift,
    Solution,
    Walk,
    Legend,
    Lasso,
    Depth,
    Progress,
    Stream,
    AtLeast,
    Winners,
    Min,
    Json,
    Lenient,
    Verbose,
    /// The operand, which names the file of the input.
    File,
}

impl fmt::Display for OptionName {
    fn fmt<W: fmt::Write>(&self, f: &mut fmt::Formatter<W>) -> fmt::Result {
        f.write_str(match self {
            OptionName::Format => "--format <FORMAT>",
            OptionName::Player => "--player <P>",
            OptionName::From => "--from <ID>",
            OptionName::Budget => "--budget <N>",
            OptionName::Search => "--search",
            OptionName::By => "--by <SEARCHER>",
            OptionName::Effort => "--effort <N>",
            OptionName::Game => "--game <FILE>",
            OptionName::Automaton => "--automaton <FILE>",
            OptionName::Specification => "--specification <FILE>",
            OptionName::CounterStrategy => "--counter-strategy",
            OptionName::Explain => "--explain",
            OptionName::Names => "--names",
            OptionName::Word => "--word",
            OptionName::WordText => "--word <WORD>",
            OptionName::ForSome => "--some",
            OptionName::Formula => "--formula <FORMULA>",
            OptionName::Outs => "--outs <NAMES>",
            OptionName::Ins => "--ins <NAMES>",
            OptionName::Negated => "--negated",
            OptionName::Deterministic => "--deterministic",
            OptionName::Status => "--status",
            OptionName::With => "--with <FILE>",
            OptionName::Trim => "--trim",
            OptionName::In => "--in <FILE>",
            OptionName::To => "--to <FILE>",
            OptionName::Controller => "--controller",
            OptionName::AsGame => "--game",
            OptionName::Aiger => "--aiger",
            OptionName::Binary => "--binary",
            OptionName::Lift => "--lift",
            OptionName::Solution => "--solution <FILE>",
            OptionName::Walk => "--walk <FILE>",
            OptionName::Legend => "--legend",
            OptionName::Lasso => "--lasso",
            OptionName::Depth => "--depth <N>",
            OptionName::Progress => "--progress",
            OptionName::Stream => "--stream",
            OptionName::AtLeast => "--at-least <N>",
            OptionName::Winners => "--winners",
            OptionName::Min => "--min",
            OptionName::Json => "--json",
            OptionName::Lenient => "--lenient",
            OptionName::Verbose => "--verbose",
            OptionName::File => "[FILE]",
        })
    }
}

/// The texts of the options that are given, and of the operand.
#[derive(Clone, Copy)]
pub struct Options<'m, 'a> {
    /// The kind of text, `pg`, `hoa` or `aiger`.
    pub format: Option<&'a str>,
    /// The number of a player, 0 or 1.
    pub player: Option<&'a str>,
    /// The identifier of a node, at most `MOST_NUMBER`.
    pub from: Option<&'a str>,
    /// The most lifts of each run, at most `MOST_BUDGET`.
    pub budget: Option<&'a str>,
    /// `true` if the flag is given; otherwise `clap` may give `false`.
    pub search: Option<&'a str>,
    /// The name of the searcher that is to search alone, `zielonka` or `tangles`.
    pub by: Option<&'a str>,
    /// How many times as far each searcher may go, 1 to `MOST_EFFORT`.
    pub effort: Option<&'a str>,
    /// The name of the file of a game.
    pub game: Option<&'a str>,
    /// The name of the file of an automaton.
    pub automaton: Option<&'a str>,
    /// The name of the file of a specification.
    pub specification: Option<&'a str>,
    /// As `search`.
    pub counter_strategy: Option<&'a str>,
    /// As `search`.
    pub explain: Option<&'a str>,
    /// As `search`.
    pub names: Option<&'a str>,
    /// As `search`.
    pub word: Option<&'a str>,
    /// The text of a word whose letters are formulas.
    pub word_text: Option<&'a str>,
    /// As `search`.
    pub for_some: Option<&'a str>,
    /// The texts of the formulas, in the order in which they are given.
    pub formulas: Option<&'m [&'a str]>,
    /// The names of the propositions that the system controls, with commas between them.
    pub outs: Option<&'a str>,
    /// The names of those that the environment controls, with commas between them.
    pub ins: Option<&'a str>,
    /// As `search`.
    pub negated: Option<&'a str>,
    /// As `search`.
    pub deterministic: Option<&'a str>,
    /// As `search`.
    pub status: Option<&'a str>,
    /// The name of the file of the other automaton.
    pub with: Option<&'a str>,
    /// As `search`.
    pub trim: Option<&'a str>,
    /// The name of the file of the automaton in whose words those of another are to be.
    pub within: Option<&'a str>,
    /// The name of the file of the automaton with which another is compared.
    pub to: Option<&'a str>,
    /// As `search`.
    pub controller: Option<&'a str>,
    /// As `search`.
    pub as_game: Option<&'a str>,
    /// As `search`.
    pub aiger: Option<&'a str>,
    /// As `search`.
    pub binary: Option<&'a str>,
    /// As `search`.
    pub lift: Option<&'a str>,
    /// The name of the file of a solution.
    pub solution: Option<&'a str>,
    /// The name of the file of a walk.
    pub walk: Option<&'a str>,
    /// As `search`.
    pub legend: Option<&'a str>,
    /// As `search`.
    pub lasso: Option<&'a str>,
    /// How many steps from the node of `from`, at most `MOST_NUMBER`.
    pub depth: Option<&'a str>,
    /// As `search`.
    pub progress: Option<&'a str>,
    /// As `search`.
    pub stream: Option<&'a str>,
    /// How many automata a stream is to have at least, at most `MOST_NUMBER`.
    pub at_least: Option<&'a str>,
    /// As `search`.
    pub winners: Option<&'a str>,
    /// As `search`.
    pub min: Option<&'a str>,
    /// As `search`.
    pub json: Option<&'a str>,
    /// As `search`.
    pub lenient: Option<&'a str>,
    /// As `search`.
    pub verbose: Option<&'a str>,
    /// The operand: the name of the file of the input.
    pub file: Option<&'a str>,
}

impl<'m, 'a> Options<'m, 'a> {
    /// Returns the text of the first formula, if one is given.
    pub fn first_formula(&self) -> Option<&'a str>
        ensures { option_map (λ text. text.now) result ≡ text_of name.Formula self.now }
    {
        self.formulas?.first().copied()
    }
}
