ghost use Rattle.std.specs.Prelude.{◌≡◌, IfOk};
ghost use Rattle.omega_cli.specs.Program.{draw};
ghost use Rattle.clap.specs.Words.{shape_of};

use crate::options::{
    FILE, FORMAT, LASSO, LEGEND, LENIENT, OptionHelp, SOLUTION, VERBOSE, Value, WALK,
};
use crate::subcommand::subcommand;
use clap::Command;
use std::alloc::{AllocError, Global};

const DETAILS: &str = "\
Use it to look at a game or an automaton. It reads one of them from FILE, or from standard input if there
is no FILE or it is -, and writes it as a graph in DOT, the language of Graphviz, whose program `dot`
makes a picture of it.

--format pg draws a game: player 0's nodes as diamonds and player 1's as boxes, each with its
identifier, its name and its priority, and an edge to each successor. With --solution, the file has a
solution of the game, as `omega solve` writes it: each node is filled in its winner's colour, light blue
for player 0 and orange for player 1, and each edge to a chosen successor is bold. With --legend, the
drawing says so in a frame of its own.

With --walk, the file has a walk in the game, as `omega verify --explain` writes it after `no`, with that
line or without it, and with names or without them: its cycle is red, and the edges of the stem alone are
blue. Another text of this kind is refused as 53 BadSolution. A walk is drawn in place of a solution.

  $ echo '0 0 0 1,2; 1 1 1 0; 2 2 1 0 \"goal\";' > game.pg
  $ omega solve --search game.pg > solution.txt
  $ omega draw --format pg --solution solution.txt --legend game.pg | dot -Tsvg > game.svg

--from ID draws the part of the game that is reached from the node with that identifier. With --depth N,
it draws only the nodes to which at most N steps lead from that node, and the edges between these; from a
node that leads on to others, an edge leads to `...`. If no node has the identifier, the refusal is
54 UnknownNode. Then a solution is one of that part, as `omega solve --from ID` writes it, and an edge to
a chosen successor is bold if the successor is drawn.

  $ omega draw --format pg --from 1 --depth 1 game.pg
  digraph game {
    0 [shape=diamond, label=\"0\\npriority 0\\n\"];
    0 -> 1;
    more0 [shape=plaintext, label=\"...\"];
    0 -> more0;
    1 [shape=box, label=\"1\\npriority 1\\n\"];
    1 -> 0;
  }

--format hoa draws an automaton: above it its name and its acceptance formula, then its states with
their numbers and names, an arrow into each start, and its edges with their labels, in which
propositions stand by their names, and their marks in braces. An edge or a start that leads to several
states at once leads to them through a point. A state that the body does not have is drawn where an
edge or a start leads to it. With --lasso, the accepting lasso that `omega empty --search` writes is
bold: its cycle is red, and the edges of the stem alone are blue. If there is no such lasso, the drawing
is the same as without --lasso.

  $ echo 'HOA: v1 States: 2 Start: 0 acc-name: co-Buchi Acceptance: 1 Fin(0)
    --BODY-- State: 0 [t] 0 {0} [t] 1 State: 1 [t] 1 --END--' > automaton.hoa
  $ omega draw --format hoa --lasso automaton.hoa | dot -Tsvg > automaton.svg

--lenient reads a game, and a solution of it, as other tools write them. Comments, from `//` or `#` to the
end of the line or between `/*` and `*/`, and `start N;` are passed over, the last `;` may be missing, and
names may have any bytes. A node without successors loses for its owner: it is drawn as its own successor.
In docs/formats.md, *The lenient game text* and *The lenient solution text* have the rules. --lenient goes
with --format pg only, which may then be left out.

--solution, --walk, --legend, --from and --depth go with --format pg only, --legend with --solution or
--walk only, --depth with --from only, and --lasso with --format hoa only.

If --format is left out, an option that goes with one format only says it. Without such an option the
first token of FILE says what is drawn: an automaton begins with `HOA:`, and all else is read as a game.
Without a FILE too, --format has to be given. A circuit is not drawn, and --format aiger is a fault, but
`omega automaton` makes an automaton of a circuit.

Faults of the text come first; `omega check --help` lists them. A text with --ABORT--, with no automaton
or with several is not one automaton, and is refused as 3 Syntax. Faults of a game, 54 behind them, come
before those of its solution or of the walk, 53 BadSolution among these. A solution that fits the game is
drawn, right or wrong, since `omega verify` judges it. A file that can't be read is refused as 61 Io. With
--lasso the refusals 41 and 42 come as from `omega empty --search`. With --verbose another line says which
of two texts is refused, `omega: in the game`, `omega: in the solution` or `omega: in the walk`, or has
the name of the file.

Exit status: 0 done, 1 a text or the task is refused, 2 the command line is wrong, 4 out of memory, 5 a
read or a write failed.";

const OPTIONS: &[OptionHelp] = &[
    FORMAT,
    OptionHelp {
        name: "from",
        value: Value::Optional("ID"),
        help: "Draw only the part of a game that the node with this identifier reaches",
    },
    OptionHelp {
        name: "depth",
        value: Value::Optional("N"),
        help: "Draw only nodes to which at most N steps lead from that node, 0 to 2147483647",
    },
    SOLUTION,
    WALK,
    LEGEND,
    LASSO,
    LENIENT,
    VERBOSE,
    FILE,
];

/// Returns the subcommand that draws a game or an automaton.
pub fn draw_command<'a>(alloc: Global) -> Result<Command<'a>, AllocError>
    ensures { IfOk result (λ command. shape_of command ≡ draw) }
{
    let about = "Draw a game or an automaton as a graph in DOT";
    subcommand(alloc, "draw", about, DETAILS, OPTIONS)
}
