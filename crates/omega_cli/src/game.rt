ghost use Rattle.std.specs.Prelude.{◌≡◌, IfOk};
ghost use Rattle.omega_cli.specs.Program.{game};
ghost use Rattle.clap.specs.Words.{shape_of};

use crate::options::{FILE, OptionHelp, VERBOSE};
use crate::subcommand::subcommand;
use clap::Command;
use std::alloc::{AllocError, Global};

const DETAILS: &str = "\
Use it to let any solver of parity games decide whether an automaton accepts anything. It reads one
automaton in the Hanoi format from FILE, or from standard input if there is no FILE or it is -, and
writes its emptiness game. In this game player 0 wins from the node of some start exactly if the
automaton has an accepting lasso. The stem of a lasso is edges that lead from a start to a state, and its
cycle is edges that lead from there back to it. It is accepting if the acceptance formula holds of the
marks of the cycle. So the automaton accepts nothing exactly if player 0 wins from no start's node.

  $ echo 'HOA: v1 States: 2 Start: 0 acc-name: co-Buchi Acceptance: 1 Fin(0)
    --BODY-- State: 0 [t] 0 {0} [t] 1 State: 1 [t] 1 --END--' > automaton.hoa
  $ omega game automaton.hoa
  parity 5;
  0 0 0 2,3;
  1 0 0 4;
  2 1 0 0;
  3 0 0 1;
  4 0 0 1;
  5 1 0 5;

With S states and E edges in the body, both numbered from 0, state s is node s, and edge e is node
S + e, which leads to the state that the edge enters. Node S + E is the sink, which leads to itself
alone: a state without an edge that can be taken leads to it. Only edges whose label some set of
propositions makes true have nodes. All nodes belong to player 0. States have priority 0, the sink has
1, and an edge the priority of its marks, so that a cycle is accepted where the greatest priority on it
is even.

For generalized-Buchi K there are K such rows of nodes, one for each set that is waited for. Rows are
counted from 0, and node n of row i is node i * (S + E) + n. An edge with mark i leads from row i into
the next row, and from the last row into the first, with priority 2 there; every other edge has priority
1. The sink, K * (S + E), comes after all rows. Starts are those of row 0.

`omega game | omega solve` solves the game, and `omega game | omega show --format pg` writes the bounds
on lifts. If several priorities lose, solving can take as many lifts as the bound says. `omega empty`
writes a lasso itself.

There is a game for these names in `acc-name:`, with the formula that the Hanoi format gives to each:
all, none, Buchi, co-Buchi, parity max even K, parity max odd K, parity min even K, parity min odd K, and
generalized-Buchi K with K from 1 to 16. Every other name, no name, or another formula beside the name is
refused as 40 NotParity. The refusal is 13 TooManyNodes if the nodes would need more than 1048576
numbers. It is 41 UniversalBranch if a start or an edge lists several states joined by &, and
42 TooManyPropositions if a label mentions over 12 propositions. The least of these that applies comes,
after the faults of the text, which `omega check --help` lists. A text with --ABORT--, with no automaton
or with several is not one automaton, and is refused as 3 Syntax.

Exit status: 0 done, 1 the text or the task is refused, 2 the command line is wrong, 4 out of memory, 5
a read or a write failed.";

const OPTIONS: &[OptionHelp] = &[VERBOSE, FILE];

/// Returns the subcommand that writes the emptiness game of an automaton.
pub fn game_command<'a>(alloc: Global) -> Result<Command<'a>, AllocError>
    ensures { IfOk result (λ command. shape_of command ≡ game) }
{
    let about = "Write the emptiness game of an automaton";
    subcommand(alloc, "game", about, DETAILS, OPTIONS)
}
