ghost use Rattle.std.specs.Prelude.{◌≡◌, IfOk};
ghost use Rattle.omega_cli.specs.Program.{canon};
ghost use Rattle.clap.specs.Words.{shape_of};

use crate::options::{FILE, FORMAT, LENIENT, OptionHelp, VERBOSE, Value};
use crate::subcommand::subcommand;
use clap::Command;
use std::alloc::{AllocError, Global};

const DETAILS: &str = "\
Use it to compare texts, or to bring one into a fixed layout. It reads FILE, or standard input if there is
no FILE or it is -, and writes the canonical text of the game, of the automata, or of the circuit. Two
texts stand for the same game, or the same automata, exactly if their canonical texts are the same.

--format pg writes a game: a header with the greatest identifier, then a line for each node in rising
order of identifiers.

  $ echo 'parity 9; 9 3 1 4; 4 2 0 9,4 \"a\";' > game.pg
  $ omega canon --format pg game.pg
  parity 9;
  4 2 0 9,4 \"a\";
  9 3 1 4;

--from ID writes the part of the game that is reached from the node with that identifier, in the same
form: a game of its own, whose nodes keep their identifiers. It is the game that `omega solve --from ID`
solves. If no node has the identifier, the refusal is 54 UnknownNode. It goes with --format pg only.

  $ echo '0 0 0 1; 1 1 1 1; 2 2 0 0;' | omega canon --format pg --from 0
  parity 1;
  0 0 0 1;
  1 1 1 1;

--min reads a game in which the least priority decides: player 0 wins if the least one that comes again
and again is even, player 1 if it is odd. It writes one in which the greatest decides, as in each game
that the other commands read. Nodes, owners, successors and names stay, and each play is won by the same
player, so that solutions stay too. An even priority becomes twice the number of different priorities in
the game that are greater, and an odd one becomes one more than that. With --from ID the part alone is
written. It goes with --format pg only.

  $ echo '0 1 0 1; 1 4 1 0; 2 7 0 0;' | omega canon --format pg --min
  parity 2;
  0 5 0 1;
  1 2 1 0;
  2 1 0 0;

--format hoa writes automata, one after the other: the header of each in a fixed order, then its
states and edges in the order given, with aliases replaced, only the parentheses that are needed, and
sets in rising order. What is stopped by --ABORT-- is left out. If there is no automaton, nothing is
written.

  $ echo 'HOA: v1 AP: 1 \"a\" Alias: @x 0|t Acceptance: 0 t
    --BODY-- State: 0 [@x&0] 0 --END--' | omega canon --format hoa
  HOA: v1
  States: 1
  AP: 1 \"a\"
  Acceptance: 0 t
  --BODY--
  State: 0
  [(0|t)&0] 0
  --END--

--format aiger writes a circuit in ASCII. Its inputs, latches and outputs stay in their order, and so do
their names. The variables are numbered anew: those of the inputs come first, then those of the latches,
and then those of the gates, each gate after those that it uses. It means the same as the circuit that is
read. With --binary it is written in binary, in which the gates take few bytes.

  $ printf 'aag 9 1 0 1 2\\n18\\n4\\n4 8 18\\n8 18 18\\n' | omega canon --format aiger
  aag 3 1 0 1 2
  2
  6
  4 2 2
  6 4 2

--lenient reads a game as other tools write it. Comments, from `//` or `#` to the end of the line or
between `/*` and `*/`, and `start N;` are passed over, the last `;` may be missing, and names may have any
bytes. A node without successors loses for its owner. docs/formats.md, *The lenient game text*, has the
rules. --lenient goes with --format pg only, which may then be left out.

If --format is left out, --from, --min and --binary say it, each of which goes with one format only.
Without them the beginning of FILE says what is read: automata begin with `HOA:`, a circuit with `aag ` or
`aig `, and all else is read as a game. Without a FILE and without such an option, --format has to be
given.

If a text is refused, nothing is written on standard output, and a line on standard error says why.
`omega check --help` lists the refusals of all formats. If the canonical text of a circuit would have over
16777216 bytes, the refusal is 4 TooLong.

Exit status: 0 done, 1 the text or the task is refused, 2 the command line is wrong, 4 out of memory, 5
a read or a write failed.";

const OPTIONS: &[OptionHelp] = &[
    FORMAT,
    OptionHelp {
        name: "from",
        value: Value::Optional("ID"),
        help: "Write only the part of a game that the node with this identifier reaches",
    },
    OptionHelp {
        name: "min",
        value: Value::None,
        help: "Read a game in which the least priority decides, and write one in which the greatest does",
    },
    OptionHelp {
        name: "binary",
        value: Value::None,
        help: "Write a circuit in binary, and not in ASCII",
    },
    LENIENT,
    VERBOSE,
    FILE,
];

/// Returns the subcommand that writes canonical texts.
pub fn canon_command<'a>(alloc: Global) -> Result<Command<'a>, AllocError>
    ensures { IfOk result (λ command. shape_of command ≡ canon) }
{
    let about = "Write a game, automata or a circuit in canonical form";
    subcommand(alloc, "canon", about, DETAILS, OPTIONS)
}
