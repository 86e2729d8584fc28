ghost use Rattle.std.specs.Prelude.{◌≡◌, IfOk};
ghost use Rattle.omega_cli.specs.Program.{realize};
ghost use Rattle.clap.specs.Words.{shape_of};

use crate::options::{BUDGET, FILE, INS, OUTS, OptionHelp, PROGRESS, VERBOSE, Value};
use crate::subcommand::subcommand;
use clap::Command;
use std::alloc::{AllocError, Global};

const DETAILS: &str = "\
Use it to find out whether a specification has a controller, and to get one. It reads one automaton in
the Hanoi format from FILE, or from standard input if there is no FILE or it is -. The automaton is a
deterministic parity automaton, and its item `controllable-AP:` lists the numbers of the propositions
that the system controls; all others are the environment's. It writes `realizable` if there is a
controller, and `unrealizable` if there is a counter-strategy, which is always so if there is none.

In each round the environment says which of its propositions hold, and then the system says which of its
own do. With a controller the automaton accepts the word of these rounds, whatever the environment says;
with a counter-strategy it does not, whatever the system says.

  $ echo 'HOA: v1 States: 1 Start: 0 AP: 2 \"request\" \"grant\" controllable-AP: 1
    acc-name: parity max even 1 Acceptance: 1 Inf(0)
    --BODY-- State: 0 [!0|1] 0 {0} --END--' > arbiter.hoa
  $ omega realize arbiter.hoa
  realizable

Here the system has to grant each request at once. If it controlled nothing, a request without a grant
would have no answer.

With --controller the winner's automaton is written in place of the line, in canonical form: the edges
that are enough to win, and the states that they reach, numbered anew in the order of the text.

  $ omega realize --controller arbiter.hoa
  HOA: v1
  States: 1
  Start: 0
  AP: 2 \"request\" \"grant\"
  acc-name: all
  Acceptance: 0 t
  controllable-AP: 1
  --BODY--
  State: 0
  [!0|1] 0
  --END--

A controller has for each state and each letter of the environment an edge whose label holds of that
letter and some letter of the system, and each cycle of its edges is accepted. A counter-strategy has for
each state one letter of the environment, with which the labels of the state's edges are joined by &. The
edges are all that answer the letter, and no cycle of them is accepted. If there are none, one edge leads
back to the state, and its label is the letter. The exit status says which of the two is written.

With --aiger a controller is written as a circuit in the AIGER format, in ASCII, or with --binary in
binary, and `unrealizable` if there is none. Its inputs are the environment's propositions in the order of
`AP:`, and its outputs the system's, each with its name. Its latches begin with 0.

  $ omega realize --aiger arbiter.hoa
  aag 1 1 0 1 0
  2
  2
  i0 request
  o0 grant

In each state and at each letter the circuit follows one edge of the controller, and what the edge leaves
open does not hold. The circuit is judged as `omega verify` judges it before it is written. If it is not
right, which is a fault of the program, the refusal is 59 Unjudged.

With --game nothing is decided, and the game in which it is decided is written in the format of PGSolver,
as far as it is reached from the start. The system is player 0 and the environment player 1. A name says
what a node is: a state, a class of letters that the same edges of a state answer, an edge, or the sink
that a letter without an answer leads to.

The game is solved by a search, and its answer is written only after it was judged. If the search finds
nothing, the game is solved by lifting. With --lift it is solved by lifting at once: take that if you need
a bound on the work. --budget N stops after N lifts for a player. Then nothing is written but
`omega: 51 Budget` on standard error, and the exit status is 3. --progress writes a line on standard
error each time that 67108864 more lifts were made for a player and the game is not yet solved for that
player, such as `player 0: 67108864 lifts of at most 1099511627776`. The line has the number of lifts so
far, and the bound or, if it is less, the budget.

--budget and --progress go with --lift only, and --game goes neither with --controller nor with --lift.
--aiger goes with none of these, and --binary with --aiger only.

--formula, or -f, gives a formula of linear temporal logic in place of the automaton, written as for
`omega ltl`. --outs lists the names of its propositions that the system controls, and --ins those that the
environment controls, with commas between them; white space around a name is passed over, and an empty
list has no name. One of the two is enough: all other names are the other player's. With both, each name
of the formula has to stand in exactly one. Then the answers are as above, also with --controller, --aiger
and --game.

  $ omega realize -f 'G(request -> grant) & G !(grant & busy)' --outs grant
  unrealizable
  $ omega realize -f 'G(request -> X grant)' --ins request
  realizable

A deterministic parity automaton is made of the formula, as `omega ltl --deterministic` makes it, and
decided by a search. -f goes neither with FILE nor with --lift, --budget or --progress.

Faults of the text come first; `omega check --help` lists them. A text with --ABORT--, with no automaton
or with several is not one automaton, and is refused as 3 Syntax. If `controllable-AP:` is missing or
stands twice, or lists a number twice or one that no proposition has, the refusal is 58 Controllable. Then
these come, in this order:

41 UniversalBranch: a start or an edge that lists several states joined by &
56 NotDeterministic: several starts, or two edges of a state that can be taken at one letter
40 NotParity: an acceptance other than all, none, Buchi, co-Buchi, parity max even K, parity max odd K,
   parity min even K and parity min odd K, by its name and by the formula that the Hanoi format gives to it
42 TooManyPropositions: a state whose labels mention over 12 propositions of the environment, or a label
   that mentions over 12 propositions and that 4194304 steps do not decide
13 TooManyNodes: a game of over 1048576 nodes
14 TooManyEdges: a game of over 8388608 successors
50 TooWide: lifting where the nodes times the priorities that lose for a player are over 67108864
51 Budget: lifts that the budget does not allow

With --aiger these come last: 78 Name if a name of a proposition is empty or has a line feed, 42 if the
labels of a state mention over 12 propositions of the environment, and 55 TooLarge if the circuit would
have over 16777216 variables, or if its judge passes a limit, as `omega verify` does.

With -f the faults of the formula come first, those of `omega ltl --deterministic`. The refusal is
58 Controllable if a name that is listed is none of the formula's, or if with both lists a name of the
formula stands in both or in neither.

Exit status: 0 realizable, or the game is written, 1 the text or the task is refused, 2 the command line
is wrong, 3 the budget is used up, 4 out of memory, 5 a read or a write failed, 6 unrealizable.";

const OPTIONS: &[OptionHelp] = &[
    OptionHelp {
        name: "formula",
        value: Value::OptionalLettered('f', "FORMULA"),
        help: "Decide a formula, as `omega ltl` reads one, in place of the automaton in FILE",
    },
    OUTS,
    INS,
    OptionHelp {
        name: "controller",
        value: Value::None,
        help: "Write the winner's automaton: a controller, or a counter-strategy",
    },
    OptionHelp {
        name: "aiger",
        value: Value::None,
        help: "Write a controller as a circuit in the AIGER format",
    },
    OptionHelp {
        name: "binary",
        value: Value::None,
        help: "With --aiger, write the circuit in binary, and not in ASCII",
    },
    OptionHelp {
        name: "as-game",
        value: Value::Long("game"),
        help: "Write the game in which it is decided, and decide nothing",
    },
    OptionHelp {
        name: "lift",
        value: Value::None,
        help: "Decide by lifting, whose work has a bound",
    },
    BUDGET,
    PROGRESS,
    VERBOSE,
    FILE,
];

/// Returns the subcommand that says whether an automaton is realizable.
pub fn realize_command<'a>(alloc: Global) -> Result<Command<'a>, AllocError>
    ensures { IfOk result (λ command. shape_of command ≡ realize) }
{
    let about = "Say whether a specification has a controller, or write one";
    subcommand(alloc, "realize", about, DETAILS, OPTIONS)
}
