ghost use Rattle.std.specs.Prelude.{◌≡◌, IfOk};
ghost use Rattle.omega_cli.specs.Program.{check};
ghost use Rattle.clap.specs.Words.{shape_of};

use crate::options::{FILE, FORMAT, LENIENT, OptionHelp, VERBOSE, Value};
use crate::subcommand::subcommand;
use clap::Command;
use std::alloc::{AllocError, Global};

const DETAILS: &str = "\
Use it to see whether a text is in order, and where not. It reads FILE, or standard input if there is no
FILE or it is -, and writes `accepted` if the text stands for a game, for automata, one after the other,
or for a circuit. If not, one line on standard error has the number and the name of what is wrong. For 1,
2 and 3 it also has the place of the byte, counted from 0.

  $ echo '0 1 0 1; 1 2 1 0;' > game.pg
  $ omega check --format pg game.pg
  accepted
  $ echo '0 1 0 1; 1 2 1 0' | omega check --format pg
  omega: 3 Syntax at 17
  $ echo 'HOA: v1 Acceptance: 0 t --BODY-- --END--' | omega check --format hoa
  accepted
  $ echo 'HOA: v1 Acceptance: 0 t --BODY-- State: 0' | omega check --format hoa
  omega: 3 Syntax at 42
  $ printf 'aag 3 1 0 1 2\\n2\\n4\\n4 6 2\\n6 4 2\\n' | omega check --format aiger
  omega: 74 Cycle

--lenient reads a game as other tools write it. Comments, from `//` or `#` to the end of the line or
between `/*` and `*/`, and `start N;` are passed over, the last `;` may be missing, and names may have any
bytes. A node without successors loses for its owner. docs/formats.md, *The lenient game text*, has the
rules. --lenient goes with --format pg only, which may then be left out.

--at-least N ends with status 6 if the text has fewer than N automata. So a gate does not open where a
program that was to write an automaton wrote nothing: the empty text is one of automata too, of none. An
automaton that is stopped by --ABORT-- is none. --at-least goes with --format hoa only, which may then be
left out.

  $ omega check --format hoa < /dev/null
  accepted
  $ omega check --at-least 1 < /dev/null; echo $?
  accepted
  6

If --format is left out, the beginning of FILE says what is read: automata begin with `HOA:`, a circuit
with `aag ` or `aig `, and all else is read as a game. Without a FILE, --format has to be given.

In each format:

1 Lex: bytes that are no token, but not of a circuit
2 Number: digits that are no number: with a needless 0 before them, or over 2147483647
3 Syntax: a token that can't stand there, or an end that comes too early
4 TooLong: a text of over 16777216 bytes

Of a game:

10 DuplicateNode: an identifier that is specified twice
11 UndefinedSuccessor: a successor that is not specified
12 HeaderTooSmall: a header whose number is below an identifier
13 TooManyNodes: a game of over 1048576 nodes
14 TooManyEdges: a game of over 8388608 successors

If several apply, 4 comes first, then the first of 1 and 2 in the text, then 3, then the least number of
the others.

Of an automaton:

20 Version: a version other than v1
21 RepeatedHeader: an item that stands twice and may not
22 MissingAcceptance: there is no `Acceptance:`
23 UnknownHeader: an unknown item whose name begins with a capital
24 StateRange: a state whose number is not below the count
25 SetRange: a set whose number is not below the count
26 Proposition: a wrong count of propositions, a repeated one, one out of range, or over 1024 of them
27 Alias: an alias that is used before it is defined, or is defined twice
28 StateTwice: a state that is defined twice
29 MixedLabels: labels on some edges of a state and not on others, or on a state and its edges
30 ImplicitCount: edges without labels that are not one for each set of propositions
31 AcceptanceAtom: an atom that is neither Fin nor Inf
32 TooDeep: a formula nested over 256 deep
33 Expansion: labels that are too large with their aliases replaced

Inside an automaton, from `HOA:` to `--END--`, the first of 1 and 2 comes first, then 3, then the least
number of the others. In a text of several automata, the first that is refused decides, or the first
fault between two automata if it comes before that. But 4 comes before all else.

Of a circuit:

70 Variables: counts of inputs, latches and gates that the greatest variable does not fit, or a greatest
   variable over 16777216
71 LiteralRange: a literal over that of the greatest variable, or in binary a delta that is too great
72 Defined: an input, a latch or a gate that is negated, constant, or defined twice
73 Undefined: a literal that is used and whose variable no input, latch or gate has
74 Cycle: a gate that uses itself, through gates
75 Reset: a latch that begins neither with 0 nor with 1
76 Symbol: a symbol of an input or of another part that there is not, or of one that has a symbol
77 Properties: bad states, constraints, justice properties or fairness constraints

4 comes first, then the first of 2 and 3 in the text, then the least number of the others. A first line
`REALIZABLE`, as other tools write it, is passed over.

Exit status: 0 accepted, 1 the text is refused, 2 the command line is wrong, 4 out of memory, 5 a read
or a write failed, 6 there are fewer automata than --at-least says.";

const OPTIONS: &[OptionHelp] = &[
    FORMAT,
    OptionHelp {
        name: "at-least",
        value: Value::Optional("N"),
        help: "End with status 6 if there are fewer than N automata, 0 to 2147483647",
    },
    LENIENT,
    VERBOSE,
    FILE,
];

/// Returns the subcommand that judges a text.
pub fn check_command<'a>(alloc: Global) -> Result<Command<'a>, AllocError>
    ensures { IfOk result (λ command. shape_of command ≡ check) }
{
    let about = "Say whether a text is accepted, or what is wrong with it";
    subcommand(alloc, "check", about, DETAILS, OPTIONS)
}
