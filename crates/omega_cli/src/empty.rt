ghost use Rattle.std.specs.Prelude.{◌≡◌, IfOk};
ghost use Rattle.omega_cli.specs.Program.{empty};
ghost use Rattle.clap.specs.Words.{shape_of};

use crate::options::{AT_LEAST, BUDGET, FILE, OptionHelp, PROGRESS, STREAM, VERBOSE, Value, WORD};
use crate::subcommand::subcommand;
use clap::Command;
use std::alloc::{AllocError, Global};

const DETAILS: &str = "\
Use it to find out whether an automaton accepts anything. Take --search, which is fast and decides every
acceptance. Without it emptiness is decided by lifting: take that if you need a bound on the work. Lifting
may take far longer than there is time for.

The command reads one automaton in the Hanoi format from FILE, or from standard input if there is no FILE
or it is -. It writes `empty` if the automaton accepts nothing, and else an accepting lasso. The stem of a
lasso is edges that lead from a start to a state, and its cycle is edges that lead from there back to it.
The run that takes the stem once and the cycle for ever is accepted, since the acceptance formula holds of
the marks of the cycle. Each edge of a lasso has a label that some set of propositions makes true, or no
label.

  $ echo 'HOA: v1 States: 2 Start: 0 acc-name: co-Buchi Acceptance: 1 Fin(0)
    --BODY-- State: 0 [t] 0 {0} [t] 1 State: 1 [t] 1 --END--' > automaton.hoa
  $ omega empty --search automaton.hoa
  stem 1
  cycle 2

An edge is written as its number. The edges of the body are numbered from 0 in the order of the text,
through all states. Here edge 0 leads from state 0 to itself, edge 1 from state 0 to state 1, and edge 2
from state 1 to itself. A stem without edges is written as `stem` alone. `omega verify --automaton` checks
such a text, whoever made it.

--word writes a third line after a lasso: the word that it accepts, as Spot writes words. The letters of
the stem come first, each with a semicolon after it. Then come those of the cycle in braces; they come
again and again. The letter of an edge is its label, with names in place of numbers, 1 for t and 0 for f.
A name that is no identifier stands in double quotes, and so does one that Spot would not read as a
name, such as true, xor or GoLeft. An edge without label has the letter of its valuation.

  $ echo 'HOA: v1 States: 2 Start: 0 AP: 2 \"a\" \"b\" acc-name: Buchi Acceptance: 1 Inf(0)
    --BODY-- State: 0 [0&!1] 1 State: 1 [1] 1 {0} --END--' | omega empty --word
  stem 0
  cycle 1
  word a & !b; cycle{b}

A letter stands for every set of propositions that makes it true. Here a holds at first and b does not.
From then on b holds, with or without a. Every word that fits the letters is accepted.

--names writes a last line: the states that the edges of the lasso leave, in the form of a word, each by
its number, and after that its name, if it has one, as it stands in the text.

  $ echo 'HOA: v1 States: 2 Start: 0 Acceptance: 1 Fin(0)
    --BODY-- State: 0 \"waits\" [t] 0 {0} [t] 1 State: 1 [t] 1 --END--' | omega empty --search --names
  stem 1
  cycle 2
  run 0 \"waits\"; cycle{1}

With --status the exit status says which of the two is written: 0 after a lasso, and 6 after `empty`, so
that a script needs no text. Without it the exit status is 0 after both.

--stream reads automata, one after the other, and writes the answer for each in turn. For an automaton
that is stopped by --ABORT-- it writes the line `aborted`. If there is no automaton, nothing is written.
--budget N bounds the lifts for each automaton by itself. With --status the exit status is 6 if one of
the automata accepts nothing, and with --at-least N if there are fewer than N of them, for which one that
is stopped by --ABORT-- is none. Else it is 0. If one of them is refused, nothing is written but the line
of the refusal. --stream does not go with --progress.

  $ echo 'HOA: v1 Acceptance: 0 f --BODY-- --END-- HOA: v1 --ABORT--
    HOA: v1 Start: 0 Acceptance: 0 t --BODY-- State: 0 [t] 0 --END--' | omega empty --search --stream
  empty
  aborted
  stem
  cycle 0

Without --search, emptiness is decided if `acc-name:` has one of these names, and the formula is the one
that the Hanoi format gives to it: all, none, Buchi, co-Buchi, parity max even K, parity max odd K,
parity min even K, parity min odd K, and generalized-Buchi K with K from 1 to 16. Every other name, no
name, or another formula beside the name is refused as 40 NotParity. A start or an edge that lists
several states joined by & is refused as 41 UniversalBranch, and a label that mentions over 12
propositions as 42 TooManyPropositions. An automaton is refused as 13 TooManyNodes if the nodes of the
game that `omega game` writes would need more than 1048576 numbers.

Without --search, emptiness is decided by lifting in that game, for player 0. If several priorities lose,
that can take as many lifts as the bound of the game says, far more than there is time for.
`omega game | omega show --format pg` writes the bound. --budget N stops after N lifts. Then nothing is
written but `omega: 51 Budget` on standard error, and the exit status is 3. If the nodes of the game
times its losing priorities are over 67108864, the refusal is 50 TooWide.

--progress writes a line on standard error each time that 67108864 more lifts were made and the game is
not yet solved, such as `player 0: 67108864 lifts of at most 1099511627776`. The line has the number of
lifts so far, and the bound or, if it is less, the budget. Standard output and the exit status are the
same without it, even if standard error cannot be written.

--search decides every acceptance formula, whatever `acc-name:` says, without lifting: it looks in the
automaton for a cycle whose marks satisfy the formula. For the names above, and for Rabin, Streett and
generalized Rabin, its time is polynomial in automaton and formula. Where Fin stands below both & and |,
it may grow with two to the number of different Fin. Its answers are proved as those of lifting are, but
the lasso may be another one. With --search an automaton is never refused as 13 TooManyNodes or
40 NotParity, and as 42 TooManyPropositions only where a label mentions over 12 propositions and 4194304
steps do not decide it. The search makes no lifts. So it goes neither with --budget nor with --progress,
and is never refused as 50 TooWide or 51 Budget.

Faults of the text come first; `omega check --help` lists them. A text with --ABORT--, with no automaton
or with several is not one automaton, and is refused as 3 Syntax, but not with --stream. Then 13, 40, 41
and 42 come in this order, then 50, and then 51; with --search 41, and then 42.

Exit status: 0 done, 1 the text or the task is refused, 2 the command line is wrong, 3 the budget is
used up, 4 out of memory, 5 a read or a write failed, 6 with --status, nothing is accepted, or with
--stream too, an automaton accepts nothing; or there are fewer automata than --at-least says.";

const OPTIONS: &[OptionHelp] = &[
    OptionHelp {
        name: "search",
        value: Value::None,
        help: "Decide by a search without lifting, which is quicker on large automata",
    },
    WORD,
    OptionHelp {
        name: "names",
        value: Value::None,
        help: "Write the states of the lasso's run, with their names, as a last line",
    },
    OptionHelp {
        name: "status",
        value: Value::None,
        help: "End with status 0 if something is accepted, and with 6 if not",
    },
    STREAM,
    AT_LEAST,
    BUDGET,
    PROGRESS,
    VERBOSE,
    FILE,
];

/// Returns the subcommand that says whether an automaton accepts anything.
pub fn empty_command<'a>(alloc: Global) -> Result<Command<'a>, AllocError>
    ensures { IfOk result (λ command. shape_of command ≡ empty) }
{
    let about = "Say whether an automaton accepts nothing, or show an accepting lasso";
    subcommand(alloc, "empty", about, DETAILS, OPTIONS)
}
