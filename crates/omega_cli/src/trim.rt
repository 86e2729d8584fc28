ghost use Rattle.std.specs.Prelude.{◌≡◌, IfOk};
ghost use Rattle.omega_cli.specs.Program.{trim};
ghost use Rattle.clap.specs.Words.{shape_of};

use crate::options::{AT_LEAST, FILE, OptionHelp, STREAM, VERBOSE};
use crate::subcommand::subcommand;
use clap::Command;
use std::alloc::{AllocError, Global};

const DETAILS: &str = "\
Use it to leave out the states that no accepting run needs, as those of a product before it is drawn or
goes into the next command. It reads an automaton of any acceptance in the Hanoi format from FILE, or
from standard input if there is no FILE or it is -, and writes it without its useless states in canonical
form. A state is useful if a start reaches it and an accepting lasso starts in it, both by edges that can
be taken. What is written accepts the same words.

  $ echo 'HOA: v1 States: 3 Start: 0 AP: 1 \"a\" acc-name: Buchi Acceptance: 1 Inf(0)
    --BODY-- State: 0 [0] 0 {0} [!0] 1 State: 1 [t] 1 State: 2 [t] 0 --END--' | omega trim
  HOA: v1
  States: 1
  Start: 0
  AP: 1 \"a\"
  acc-name: Buchi
  Acceptance: 1 Inf(0)
  --BODY--
  State: 0
  [0] 0 {0}
  --END--

No cycle from state 1 has an edge in set 0, and no edge leads to state 2.

Useful states keep their order, names, labels and marks, and are numbered anew. The starts and edges stay
whose states are all useful. If an edge of a state without labels goes, the others get the labels of
their valuations. The name of the automaton, the propositions, the acceptance formula and its name stay
as they are, also for sets that no edge is in any more. What `tool:` and `properties:` say is left out, as
it may no longer hold, and so are headers that the format leaves open. If no state is useful, the answer
has no states and no starts.

--stream reads automata, one after the other, and writes each without its useless states, in turn. What
is stopped by --ABORT-- is left out. If there is no automaton, nothing is written. If one of them is
refused, nothing is written but the line of the refusal. With --at-least N the exit status is 6 if there
are fewer than N automata, without those that are stopped.

  $ echo 'HOA: v1 Acceptance: 0 f --BODY-- --END-- HOA: v1 --ABORT--
    HOA: v1 Start: 0 Acceptance: 0 t --BODY-- State: 0 [t] 0 --END--' |
    omega trim --stream | omega show --format hoa
  0 automaton states 0 edges 0 propositions 0 sets 0 acceptance f
  1 automaton states 1 edges 1 propositions 0 sets 0 acceptance t

Faults of the text come first; `omega check --help` lists them. A text with --ABORT--, with no automaton
or with several is not one automaton, and is refused as 3 Syntax, but not with --stream. Then, if a start
or an edge lists several states joined by &, the refusal is 41 UniversalBranch. 42 TooManyPropositions
comes only where a label mentions over 12 propositions, and 4194304 steps do not decide whether it can
hold. 55 TooLarge comes last, if what stays would be over a limit of automata with the labels that are
added, or with the parentheses that its labels and its formula need.

Exit status: 0 done, 1 the text or the task is refused, 2 the command line is wrong, 4 out of memory, 5
a read or a write failed, 6 there are fewer automata than --at-least says.";

const OPTIONS: &[OptionHelp] = &[STREAM, AT_LEAST, VERBOSE, FILE];

/// Returns the subcommand that writes an automaton without its useless states.
pub fn trim_command<'a>(alloc: Global) -> Result<Command<'a>, AllocError>
    ensures { IfOk result (λ command. shape_of command ≡ trim) }
{
    let about = "Write an automaton without the states that no accepting run needs";
    subcommand(alloc, "trim", about, DETAILS, OPTIONS)
}
