ghost use Rattle.std.specs.Prelude.{◌≡◌, IfOk};
ghost use Rattle.omega_cli.specs.Program.{equal};
ghost use Rattle.clap.specs.Words.{shape_of};

use crate::options::{FILE, OptionHelp, VERBOSE, Value};
use crate::subcommand::subcommand;
use clap::Command;
use std::alloc::{AllocError, Global};

const DETAILS: &str = "\
Use it to find out whether two deterministic automata accept the same words: what another tool made of an
automaton, say, and the automaton itself. It reads one automaton in the Hanoi format from FILE, or from
standard input if there is no FILE or it is -, and another from the file that --to names. It writes `yes`
if each word is accepted by both or by none, and `no` if not. With --formula, or -f, it finds out whether
the automaton accepts exactly the words that satisfy a formula.

  $ echo 'HOA: v1 States: 1 Start: 0 AP: 1 \"a\" acc-name: Buchi Acceptance: 1 Inf(0)
    --BODY-- State: 0 [0] 0 {0} [!0] 0 --END--' > often.hoa
  $ echo 'HOA: v1 States: 1 Start: 0 AP: 1 \"a\" acc-name: all Acceptance: 0 t
    --BODY-- State: 0 [0] 0 --END--' > always.hoa
  $ omega equal --to often.hoa --explain always.hoa
  no
  accepted by file
  stem 1
  cycle 0
  word !a; cycle{a}

With --explain lines follow `no`: first which of the two automata accepts the word, `accepted by input`
for the one in FILE or on standard input, and `accepted by file` for the other. Then come a lasso of that
automaton, which `omega verify --automaton` judges, and a word along it, as `omega empty --word` writes
both. That automaton accepts each word that fits the letters, and the other accepts none.

Propositions are joined by name. A proposition that only one of the two automata has is free in the
other.

With -f it compares with FORMULA, as `omega ltl` reads one, in place of an automaton: what a tool made of
a formula, say, and the formula itself. It writes `yes` if the automaton accepts exactly the words that
satisfy FORMULA, and `no` if not. Several formulas are answered one after the other, as by `omega
satisfies`.

  $ omega equal -f 'G F a' often.hoa
  yes
  $ omega equal -f 'G a' --explain often.hoa
  no
  accepted by automaton
  stem 1
  cycle 0
  word !a; cycle{a}

With --explain the line after `no` is `accepted by automaton` before a word that the automaton accepts and
that does not satisfy FORMULA, with a lasso, and `accepted by formula` before the line of a word alone that
satisfies FORMULA and that the automaton does not accept.

Faults of the other automaton's text come first, then those of the text in FILE; `omega check --help`
lists them. A text with --ABORT--, with no automaton or with several is not one automaton, and is refused
as 3 Syntax. Then 41 UniversalBranch, 42 TooManyPropositions, 55 TooLarge and 56 NotDeterministic come as
from `omega contained`, for either automaton. With --verbose another line says which of the two is
refused, `omega: in the other automaton` or `omega: in the automaton`. A file that can't be read is
refused as 61 Io, and with --verbose another line has its name. Files are read before standard input.
With -f faults of FORMULA come first, then those of the automaton's text, and then refusals as from `omega
satisfies`. If each word of the automaton satisfies FORMULA, 56 NotDeterministic and the other refusals of
`omega complement` come next, and 42 and 55 of what is looked for in its complement.

Exit status: 0 yes, 1 a text or the task is refused, 2 the command line is wrong, 4 out of memory, 5 a
read or a write failed, 6 no.";

const OPTIONS: &[OptionHelp] = &[
    OptionHelp {
        name: "to",
        value: Value::Optional("FILE"),
        help: "The file with the other automaton",
    },
    OptionHelp {
        name: "formula",
        value: Value::OptionalRepeated('f', "FORMULA"),
        help: "A formula to compare with, in place of an automaton; of several each is answered in turn",
    },
    OptionHelp {
        name: "explain",
        value: Value::None,
        help: "Write after `no` a word that only one of the two accepts, and which",
    },
    VERBOSE,
    FILE,
];

/// Returns the subcommand that says whether two deterministic automata accept the same words, or one of them those
/// that satisfy a formula.
pub fn equal_command<'a>(alloc: Global) -> Result<Command<'a>, AllocError>
    ensures { IfOk result (λ command. shape_of command ≡ equal) }
{
    let about =
        "Say whether two deterministic automata, or one and a formula, accept the same words";
    subcommand(alloc, "equal", about, DETAILS, OPTIONS)
}
