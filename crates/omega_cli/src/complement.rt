ghost use Rattle.std.specs.Prelude.{◌≡◌, IfOk};
ghost use Rattle.omega_cli.specs.Program.{complement};
ghost use Rattle.clap.specs.Words.{shape_of};

use crate::options::{AT_LEAST, FILE, OptionHelp, STREAM, VERBOSE};
use crate::subcommand::subcommand;
use clap::Command;
use std::alloc::{AllocError, Global};

const DETAILS: &str = "\
Use it to turn a rule round: an automaton of the words that keep it becomes one of the words that break
it. It reads a deterministic automaton in the Hanoi format from FILE, or from standard input if there is
no FILE or it is -, and writes one in canonical form that accepts a word exactly if the first does not.

  $ echo 'HOA: v1 States: 1 Start: 0 AP: 1 \"a\" acc-name: Buchi Acceptance: 1 Inf(0)
    --BODY-- State: 0 [0] 0 {0} --END--' | omega complement
  HOA: v1
  States: 2
  Start: 0
  AP: 1 \"a\"
  Acceptance: 2 Fin(0)|Inf(1)
  --BODY--
  State: 0
  [0] 0 {0}
  [!0] 1
  State: 1
  [t] 1 {1}
  --END--

The first automaton accepts the word in which a always holds, and the complement all others. `omega meet`
finds the words of a system that a complement accepts.

The complement has the states and the edges of the automaton, and the dual acceptance formula: & for |
and | for &, Fin for Inf and Inf for Fin, f for t and t for f. A letter is a set of propositions. If a
state has no edge for some letters, a further edge leads for these to a further state, which comes after
the last. The only edge of that state leads back to it, and is in a set of its own, with which the
formula holds. If there is no start, that state is the start. If no letter is missing and there is a
start, there is neither that state nor that set. Edges without labels get those of their valuations, and
labels and marks of states are moved to the edges that leave them. The complement has no `acc-name:`, and
`omega empty --search` decides it. What `tool:`, `name:` and `properties:` say is left out.

An automaton that has two starts, or two edges of one state whose labels can hold together, is not
deterministic, and is refused as 56 NotDeterministic with the number of that state, or of the second
start. That an automaton accepts the same words as a deterministic one is not enough.

  $ echo 'HOA: v1 States: 2 Start: 0 AP: 1 \"a\" Acceptance: 0 t
    --BODY-- State: 0 [0] 0 [t] 1 State: 1 [t] 1 --END--' | omega complement
  omega: 56 NotDeterministic at 0

--stream reads automata, one after the other, and writes the complement of each in turn. What is stopped
by --ABORT-- is left out. If there is no automaton, nothing is written. If one of them is refused,
nothing is written but the line of the refusal. With --at-least N the exit status is 6 if there are fewer
than N automata, without those that are stopped.

  $ echo 'HOA: v1 Acceptance: 0 f --BODY-- --END-- HOA: v1 --ABORT--
    HOA: v1 Start: 0 Acceptance: 0 t --BODY-- State: 0 [t] 0 --END--' |
    omega complement --stream | omega empty --search --stream
  stem
  cycle 0
  empty

Faults of the text come first; `omega check --help` lists them. A text with --ABORT--, with no automaton
or with several is not one automaton, and is refused as 3 Syntax, but not with --stream. Then, if a start
or an edge lists several states joined by &, the refusal is 41 UniversalBranch. 55 TooLarge comes if the
complement could have over 1048576 states or 8388608 edges, or would be over another limit of automata.
42 TooManyPropositions comes only where labels of one state mention over 12 propositions, and 4194304
steps do not decide whether they can hold.

Exit status: 0 done, 1 the text or the task is refused, 2 the command line is wrong, 4 out of memory, 5
a read or a write failed, 6 there are fewer automata than --at-least says.";

const OPTIONS: &[OptionHelp] = &[STREAM, AT_LEAST, VERBOSE, FILE];

/// Returns the subcommand that writes the complement of a deterministic automaton.
pub fn complement_command<'a>(alloc: Global) -> Result<Command<'a>, AllocError>
    ensures { IfOk result (λ command. shape_of command ≡ complement) }
{
    let about = "Write an automaton that accepts the words that a deterministic one does not";
    subcommand(alloc, "complement", about, DETAILS, OPTIONS)
}
