ghost use Rattle.std.specs.Prelude.{◌≡◌, IfOk, map};
ghost use Rattle.clap.specs.Words.{FailsBy, app_of, fault_of, shape_of};
ghost use Rattle.clap.specs.Words.{subcommand_of, subcommand_rows_of, with_subcommand};
ghost use Rattle.omega_cli.specs.Program.{program};
ghost use Rattle.omega_cli.specs.private.building.Building.{shape_for, without_subcommands};

use crate::accepts::accepts_command;
use crate::automaton::automaton_command;
use crate::canon::canon_command;
use crate::check::check_command;
use crate::complement::complement_command;
use crate::contained::contained_command;
use crate::draw::draw_command;
use crate::empty::empty_command;
use crate::equal::equal_command;
use crate::game::game_command;
use crate::join::join_command;
use crate::ltl::ltl_command;
use crate::meet::meet_command;
use crate::realize::realize_command;
use crate::satisfies::satisfies_command;
use crate::show::show_command;
use crate::solve::solve_command;
use crate::trim::trim_command;
use crate::verify::verify_command;
use crate::version::VERSION;
use clap::error::ErrorKind;
use clap::{ArgMatches, Command, Error};
use omega_cli_command::Subcommand;
use std::alloc::{AllocError, Global};

const DETAILS: &str = "\
A game text, in the format of PGSolver, has for each node an identifier, a priority, its owner
(player 0 or 1), the identifiers of its successors, and perhaps a name:

  0 1 0 1; 1 2 1 0 \"goal\";

Here node 0 has priority 1, belongs to player 0 and leads to node 1; node 1 has priority 2, belongs to
player 1, leads to node 0 and is named goal. A header such as `parity 1;` may come first. No identifier
may exceed its number. The play goes on for ever, and at each node its owner chooses the successor.
Player 0 wins if the greatest priority that comes again and again is even, player 1 if it is odd.

A text of the Hanoi format, version 1, holds omega-automata, one after the other:

  HOA: v1 States: 1 Start: 0 AP: 1 \"a\" acc-name: Buchi Acceptance: 1 Inf(0)
  --BODY-- State: 0 [0] 0 {0} [!0] 0 --END--

Here one state has two edges to itself: one where a holds, which is in set 0, and one where it does not.
A word is accepted if its run takes the first edge again and again. `omega empty`, `omega game`,
`omega accepts`, `omega satisfies`, `omega complement`, `omega trim` and `omega realize` read one
automaton, `omega contained`, `omega equal`, `omega meet` and `omega join` read two, and `omega draw`
draws one automaton or a game. `omega ltl` makes an automaton of a formula, and `omega realize -f` a
controller. With --stream `omega empty`, `contained`, `satisfies`, `complement` and `trim` take automata
one after the other.

A text of the AIGER format, in ASCII or in binary, holds a circuit of and-gates and latches:

  aag 1 1 0 1 0
  2
  2
  i0 request
  o0 grant

Here the output grant is the input request. `omega realize --aiger` writes a controller as a circuit,
`omega verify` judges one, and `omega automaton` makes an automaton of one. `omega show`, `check` and
`canon` read all three formats, and --format says which. If it is left out, an option that goes with one
format only says it, or the beginning of a file.

A command reads the file that its last word names, as in `omega solve game.pg`. Without a name, or with
-, it reads standard input. It writes its answer to standard output. If a text or the task is refused, a
line on standard error says why, such as `omega: 3 Syntax at 0` for a text that is no game from its first
byte on. Bytes are counted from 0. With --verbose, or -v, before or behind the command's name, further
lines say which text is refused if a command reads two, in which line and column the fault is or what is
to be mended, and which file can't be read:

  $ echo '0 0 0 1; 1 0 0 2;' | omega solve --verbose
  omega: 11 UndefinedSuccessor
  omega: node 1: successor 2 is no node

Exit status:
  0  done
  1  a text or the task is refused
  2  the command line is wrong
  3  the budget is used up
  4  out of memory
  5  a read or a write failed
  6  the answer of `omega verify`, `accepts`, `contained`, `equal`, `satisfies`, `realize` or
     `empty --status` is no, or there are fewer automata than --at-least says

`omega <COMMAND> --help` says more about a command.";

/// Returns what `clap` finds in `words`, whose first is the program's name. If help or the version is requested, the
/// error has the text.
pub fn matches_of<'a>(alloc: Global, words: &'a [&'a str]) -> Result<ArgMatches<'a>, Error>
    ensures found { IfOk result (λ found.
        subcommand_rows_of found ≡ subcommand_of program (map (λ word. word.now) words.now)) }
    ensures kinds { FailsBy (fault_of program (map (λ word. word.now) words.now)) result }
{
    let whole = whole_program(alloc)?;
    whole.try_get_matches_from(words)
}

/// The subcommands in the order in which help lists them.
const SUBCOMMANDS: [Subcommand; 19] = [
    Subcommand::Show,
    Subcommand::Check,
    Subcommand::Canon,
    Subcommand::Solve,
    Subcommand::Verify,
    Subcommand::Empty,
    Subcommand::Game,
    Subcommand::Automaton,
    Subcommand::Accepts,
    Subcommand::Contained,
    Subcommand::Equal,
    Subcommand::Satisfies,
    Subcommand::Meet,
    Subcommand::Join,
    Subcommand::Complement,
    Subcommand::Trim,
    Subcommand::Ltl,
    Subcommand::Realize,
    Subcommand::Draw,
];

/// Returns the subcommand as `clap` takes it.
fn command_of<'a>(alloc: Global, subcommand: Subcommand) -> Result<Command<'a>, AllocError>
    ensures { IfOk result (λ command. shape_of command ≡ shape_for subcommand) }
{
    match subcommand {
        Subcommand::Show => show_command(alloc),
        Subcommand::Check => check_command(alloc),
        Subcommand::Canon => canon_command(alloc),
        Subcommand::Solve => solve_command(alloc),
        Subcommand::Verify => verify_command(alloc),
        Subcommand::Empty => empty_command(alloc),
        Subcommand::Game => game_command(alloc),
        Subcommand::Automaton => automaton_command(alloc),
        Subcommand::Accepts => accepts_command(alloc),
        Subcommand::Contained => contained_command(alloc),
        Subcommand::Equal => equal_command(alloc),
        Subcommand::Satisfies => satisfies_command(alloc),
        Subcommand::Meet => meet_command(alloc),
        Subcommand::Join => join_command(alloc),
        Subcommand::Complement => complement_command(alloc),
        Subcommand::Trim => trim_command(alloc),
        Subcommand::Ltl => ltl_command(alloc),
        Subcommand::Realize => realize_command(alloc),
        Subcommand::Draw => draw_command(alloc),
    }
}

/// Returns the text that says what is wrong with the options of `subcommand`. It has the usage line, in the form of the
/// faults that `clap` finds.
pub fn fault_text(
    alloc: Global,
    subcommand: Subcommand,
    message: &str,
) -> Result<String, AllocError> {
    let command = command_of(alloc, subcommand)?;
    let name = format!(in alloc; "omega {}", command.get_name())?;
    let mut command = command.bin_name(name.as_str())?;
    command
        .error(ErrorKind::ArgumentConflict, message)?
        .to_string(alloc)
}

/// Returns the program's command line.
fn whole_program<'a>(alloc: Global) -> Result<Command<'a>, AllocError>
    ensures { IfOk result (λ command. app_of command ≡ program) }
{
    let mut program = without_subcommands(alloc)?;
    let subcommands = SUBCOMMANDS.as_slice();
    for subcommand in subcommands {
        program = with(alloc, program, *subcommand)?;
    }
    Ok(program)
}

/// Returns `program` with one subcommand more.
fn with<'a>(
    alloc: Global,
    program: Command<'a>,
    subcommand: Subcommand,
) -> Result<Command<'a>, AllocError>
    ensures { IfOk result
        (λ command. app_of command ≡ with_subcommand (app_of program.entry) (shape_for subcommand)) }
{
    let added = command_of(alloc, subcommand)?;
    let whole = program.subcommand(added)?;
    Ok(whole)
}

/// Returns the program with its version and help, without subcommands.
fn without_subcommands<'a>(alloc: Global) -> Result<Command<'a>, AllocError>
    ensures { IfOk result (λ command. app_of command ≡ without_subcommands) }
{
    Command::new(alloc, "omega")
        .about(
            "Reads, checks, writes and draws parity games and omega-automata, solves games, says whether an \
             automaton accepts anything, verifies such answers, compares what automata accept, says whether they \
             satisfy formulas, makes automata of formulas and circuits, forms products, unions and complements, \
             trims automata, and finds controllers, also as circuits.",
        )
        .version(VERSION)
        .after_help("`omega <COMMAND> --help` says more about a command.")
        .after_long_help(DETAILS)
        .subcommand_required(true)
        .bin_name("omega")
}
