ghost use Rattle.std.specs.Prelude.{◌≡◌, IfOk};
ghost use Rattle.omega_cli.specs.Program.{meet};
ghost use Rattle.clap.specs.Words.{shape_of};

use crate::options::{FILE, OptionHelp, VERBOSE, Value, WITH};
use crate::subcommand::subcommand;
use clap::Command;
use std::alloc::{AllocError, Global};

const DETAILS: &str = "\
Use it to find the words that two automata both accept: those of a system, say, that break a rule. It
reads one automaton in the Hanoi format from FILE, or from standard input if there is no FILE or it is -,
and another from the file that --with names. It writes one in canonical form, their product, which accepts
a word exactly if both do.

  $ echo 'HOA: v1 States: 2 Start: 0 AP: 2 \"request\" \"grant\" acc-name: all Acceptance: 0 t
    --BODY-- State: 0 [0] 1 State: 1 [1] 0 [!1] 1 --END--' > system.hoa
  $ echo 'HOA: v1 States: 1 Start: 0 AP: 1 \"grant\" acc-name: Buchi Acceptance: 1 Inf(0)
    --BODY-- State: 0 [!0] 0 {0} --END--' > never.hoa
  $ omega meet --with never.hoa system.hoa
  HOA: v1
  States: 2
  Start: 0
  AP: 2 \"request\" \"grant\"
  acc-name: Buchi
  Acceptance: 1 Inf(0)
  --BODY--
  State: 0 \"0,0\"
  [0&!1] 1 {0}
  State: 1 \"1,0\"
  [!1] 1 {0}
  --END--
  $ omega meet --with never.hoa system.hoa | omega empty --search --word
  stem 0
  cycle 1
  word request & !grant; cycle{!grant}

The second automaton accepts the words in which grant never holds. The product shows that the system has
such a word. To find the words of a system that break a rule, give the complement of the rule's automaton,
as `omega complement` writes it, to --with: if the product accepts nothing, the system keeps the rule.

Propositions are joined by name: those of the automaton in FILE come first, then those that only the
other has. The states are the pairs of states that are reached, numbered breadth first from the starts in
their order. Each is named by the names of its two states, or else by their numbers. From a pair, an
edge leads for each edge of the one state and each edge of the other whose labels can hold together, and
its label joins both by &, each conjunct once. Edges without labels get those of their valuations, and
labels and marks of states are moved to the edges that leave them. The acceptance formula joins both by
&, with the sets of the other automaton after those of the one in FILE. If each set of both has to recur, and
they are at most 16, each set of the product has to, and it is named all, Buchi or generalized-Buchi.
Else it has no name, and `omega empty --search` decides it. What `tool:`, `name:` and `properties:` say
is left out.

With --trim the product is written without the states that no accepting run needs, as `omega trim` writes
it. The states that stay keep their names, and are numbered anew. The text of the whole product is not
made, and may be over the limit that the next command of a pipe has.

  $ echo 'HOA: v1 States: 2 Start: 0 AP: 1 \"grant\" acc-name: Buchi Acceptance: 1 Inf(0)
    --BODY-- State: 0 [0] 0 {0} [!0] 1 State: 1 [t] 1 --END--' > always.hoa
  $ omega meet --trim --with always.hoa system.hoa
  HOA: v1
  States: 2
  Start: 0
  AP: 2 \"request\" \"grant\"
  acc-name: Buchi
  Acceptance: 1 Inf(0)
  --BODY--
  State: 0 \"0,0\"
  [0&1] 1 {0}
  State: 1 \"1,0\"
  [1] 0 {0}
  --END--

Faults of the other automaton's text come first, then those of the text in FILE; `omega check --help`
lists them. A text with --ABORT--, with no automaton or with several is not one automaton, and is refused
as 3 Syntax. With --verbose another line says which text has the fault, `omega: in the other automaton`
or `omega: in the automaton`:

  $ echo 'HOA: v1 Acceptance: 0 t --BODY-- State: 0' | omega meet --verbose --with never.hoa
  omega: 3 Syntax at 42
  omega: in the automaton
  omega: line 2, column 1: end of the text

Then, if a start or an edge of one of them lists several states joined by &, the refusal is
41 UniversalBranch. It is 55 TooLarge if the product would have over 1048576 states or 8388608 edges, or
would be over another limit of automata. 42 TooManyPropositions comes only where two labels together
mention over 12 propositions, and 4194304 steps do not decide whether they can hold together. With --trim
the same two come of the product's own labels, as from `omega trim`, if they do not come before. A file that
can't be read is refused as 61 Io, and with --verbose another line has its name. Files are read before
standard input.

Exit status: 0 done, 1 a text or the task is refused, 2 the command line is wrong, 4 out of memory, 5 a
read or a write failed.";

const OPTIONS: &[OptionHelp] = &[
    WITH,
    OptionHelp {
        name: "trim",
        value: Value::None,
        help: "Leave out the states of the product that no accepting run needs",
    },
    VERBOSE,
    FILE,
];

/// Returns the subcommand that writes an automaton of the words that two automata accept.
pub fn meet_command<'a>(alloc: Global) -> Result<Command<'a>, AllocError>
    ensures { IfOk result (λ command. shape_of command ≡ meet) }
{
    let about = "Write an automaton that accepts the words that two automata both accept";
    subcommand(alloc, "meet", about, DETAILS, OPTIONS)
}
