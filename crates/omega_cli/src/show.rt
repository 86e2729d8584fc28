ghost use Rattle.std.specs.Prelude.{◌≡◌, IfOk};
ghost use Rattle.omega_cli.specs.Program.{show};
ghost use Rattle.clap.specs.Words.{shape_of};

use crate::options::{FILE, FORMAT, LENIENT, OptionHelp, VERBOSE, Value};
use crate::subcommand::subcommand;
use clap::Command;
use std::alloc::{AllocError, Global};

const DETAILS: &str = "\
Use it to see how large a game, an automaton or a circuit is, and how much work a game can take. It reads
FILE, or standard input if there is no FILE or it is -.

--format pg reads a game. It writes one line with the game's size, and for each player one line with the
bound: no run of `omega solve` for that player on this game makes more lifts. So a --budget of the bound
is enough, and the bound is known before anything is solved. For each priority in use that loses for the
player, take one more than the number of nodes of that priority. The bound is the product of all these
and of the number of nodes.

  $ echo '0 1 0 1; 1 2 1 0;' > game.pg
  $ omega show --format pg game.pg
  game nodes 2 edges 2 greatest 1
  player 0 bound 4
  player 1 bound 4

Here `greatest` is the greatest identifier. A bound of 2^128 or more is written as
`bound over 128 bits`.

--format hoa reads automata, one after the other, and writes a line for each, numbered from 0: how many
states, edges, propositions and sets it has, and its acceptance formula. An automaton that is stopped by
--ABORT-- has a line too. If there is no automaton, nothing is written.

  $ echo 'HOA: v1 --ABORT-- HOA: v1 Acceptance: 1 Inf(0)
    --BODY-- State: 0 [t] 0 {0} --END--' | omega show --format hoa
  0 aborted
  1 automaton states 1 edges 1 propositions 0 sets 1 acceptance Inf(0)

--format aiger reads a circuit, and writes one line with the numbers of its inputs, latches, outputs and
gates.

  $ printf 'aag 1 1 0 1 0\\n2\\n2\\n' | omega show --format aiger
  circuit inputs 1 latches 0 outputs 1 gates 0

--json writes the same as JSON, one value on a line: a line for the game or the circuit, or one for each
automaton. Of a game it says besides how many nodes have each priority, the greatest first, how many nodes
are their own successors, and how many strongly connected components there are and nodes in the largest of
them. A bound of 2^128 or more is null.

  $ omega show --format pg --json game.pg
  {\"nodes\":2,\"edges\":2,\"greatest\":1,\"priorities\":[[2,1],[1,1]],\"self_loops\":0,\"components\":1,\"largest\":2,\"bounds\":[4,4]}
  $ echo 'HOA: v1 --ABORT-- HOA: v1 Acceptance: 1 Inf(0)
    --BODY-- State: 0 [t] 0 {0} --END--' | omega show --format hoa --json
  {\"automaton\":0,\"aborted\":true}
  {\"automaton\":1,\"states\":1,\"edges\":1,\"propositions\":0,\"sets\":1,\"acceptance\":\"Inf(0)\"}

--lenient reads a game as other tools write it. Comments, from `//` or `#` to the end of the line or
between `/*` and `*/`, and `start N;` are passed over, the last `;` may be missing, and names may have any
bytes. A node without successors loses for its owner. docs/formats.md, *The lenient game text*, has the
rules. --lenient goes with --format pg only, which may then be left out.

If --format is left out, the beginning of FILE says what is read: automata begin with `HOA:`, a circuit
with `aag ` or `aig `, and all else is read as a game. Without a FILE, --format has to be given.

If a text is refused, nothing is written on standard output, and a line on standard error says why.
`omega check --help` lists the refusals of all formats.

Exit status: 0 done, 1 the text is refused, 2 the command line is wrong, 4 out of memory, 5 a read or
a write failed.";

const OPTIONS: &[OptionHelp] = &[
    FORMAT,
    OptionHelp {
        name: "json",
        value: Value::None,
        help: "Write a value of JSON on each line",
    },
    LENIENT,
    VERBOSE,
    FILE,
];

/// Returns the subcommand that describes a text.
pub fn show_command<'a>(alloc: Global) -> Result<Command<'a>, AllocError>
    ensures { IfOk result (λ command. shape_of command ≡ show) }
{
    let about = "Describe a game, its size and the bounds on lifts, or automata or a circuit";
    subcommand(alloc, "show", about, DETAILS, OPTIONS)
}
