ghost use Rattle.std.specs.Prelude.{◌≡◌, IfOk};
ghost use Rattle.omega_cli.specs.Program.{join};
ghost use Rattle.clap.specs.Words.{shape_of};

use crate::options::{FILE, OptionHelp, VERBOSE, WITH};
use crate::subcommand::subcommand;
use clap::Command;
use std::alloc::{AllocError, Global};

const DETAILS: &str = "\
Use it to take the words of two automata together: those of two systems, say, or those that break one of
two rules. It reads one automaton of any acceptance in the Hanoi format from FILE, or from standard input
if there is no FILE or it is -, and another from the file that --with names. It writes one in canonical
form, their union, which accepts a word exactly if one of the two does, or both.

  $ echo 'HOA: v1 States: 1 Start: 0 AP: 1 \"a\" acc-name: Buchi Acceptance: 1 Inf(0)
    --BODY-- State: 0 [0] 0 {0} [!0] 0 --END--' > often.hoa
  $ echo 'HOA: v1 States: 1 Start: 0 AP: 1 \"b\" acc-name: co-Buchi Acceptance: 1 Fin(0)
    --BODY-- State: 0 [0] 0 {0} [!0] 0 --END--' > seldom.hoa
  $ omega join --with seldom.hoa often.hoa
  HOA: v1
  States: 2
  Start: 0
  Start: 1
  AP: 2 \"a\" \"b\"
  Acceptance: 3 Inf(0)|Inf(2)&Fin(1)
  --BODY--
  State: 0
  [0] 0 {0}
  [!0] 0
  State: 1
  [1] 1 {1 2}
  [!1] 1 {2}
  --END--

The first automaton accepts the words in which a holds again and again, the second those in which b holds
only finitely often. What is written has the states and edges of both beside each other, so that each of
its runs is one of the one or of the other.

Propositions are joined by name: those of the automaton in FILE come first, then those that only the
other has. The states of the other are numbered after those of the one in FILE, and so are its starts, its
edges and its sets. States keep their names, labels and marks. Edges without labels get those of their
valuations. If both automata have the same acceptance formula over as many sets, they share the sets and
the formula, and its name is that of the one in FILE, or else of the other. If not, the acceptance formula
joins both by |, and has no name. A formula that holds of a run without any marks, as Fin(0) does, would
then hold of each run of the other automaton. So it is joined by & with Inf of one set more, in which all
edges of its own automaton are. What `tool:`, `name:` and `properties:` say is left out.

The union is not deterministic if both automata have a start. So `omega contained` takes it from FILE and
not from --in.

Faults of the other automaton's text come first, then those of the text in FILE; `omega check --help`
lists them. A text with --ABORT--, with no automaton or with several is not one automaton, and is refused
as 3 Syntax. Then, if a start or an edge of one of them lists several states joined by &, the refusal is
41 UniversalBranch. It is 55 TooLarge if the union would have over 1048576 states or 8388608 edges, or
would be over another limit of automata. With --verbose another line says which text is refused,
`omega: in the other automaton` or `omega: in the automaton`. A file that can't be read is refused as
61 Io, and with --verbose another line has its name. Files are read before standard input.

Exit status: 0 done, 1 a text or the task is refused, 2 the command line is wrong, 4 out of memory, 5 a
read or a write failed.";

const OPTIONS: &[OptionHelp] = &[WITH, VERBOSE, FILE];

/// Returns the subcommand that writes an automaton of the words that one of two automata accepts.
pub fn join_command<'a>(alloc: Global) -> Result<Command<'a>, AllocError>
    ensures { IfOk result (λ command. shape_of command ≡ join) }
{
    let about = "Write an automaton that accepts the words that one of two automata accepts";
    subcommand(alloc, "join", about, DETAILS, OPTIONS)
}
