ghost use Rattle.std.specs.Prelude.{◌≡◌, IfOk};
ghost use Rattle.omega_cli.specs.Program.{contained};
ghost use Rattle.clap.specs.Words.{shape_of};

use crate::options::{AT_LEAST, FILE, OptionHelp, STREAM, VERBOSE, Value};
use crate::subcommand::subcommand;
use clap::Command;
use std::alloc::{AllocError, Global};

const DETAILS: &str = "\
Use it to find out whether a system keeps a rule. It reads one automaton in the Hanoi format, the
system's, from FILE, or from standard input if there is no FILE or it is -, and another, the rule's, which
has to be deterministic, from the file that --in names. It writes `yes` if the other automaton accepts
each word that the one in FILE accepts, and `no` if not.

  $ echo 'HOA: v1 States: 2 Start: 0 AP: 2 \"request\" \"grant\" acc-name: all Acceptance: 0 t
    --BODY-- State: 0 [0] 1 State: 1 [1] 0 [!1] 1 --END--' > system.hoa
  $ echo 'HOA: v1 States: 1 Start: 0 AP: 1 \"grant\" acc-name: Buchi Acceptance: 1 Inf(0)
    --BODY-- State: 0 [0] 0 {0} [!0] 0 --END--' > often.hoa
  $ omega contained --in often.hoa --explain system.hoa
  no
  stem 0
  cycle 2
  word request & !grant; cycle{!grant}

The rule says that grant holds again and again. The system need not keep it: after a request it may go on
for ever without a grant.

With --explain three lines follow `no`: a lasso of the automaton in FILE, which `omega verify --automaton`
judges, and a word along it, as `omega empty --word` writes both. Each letter of the word demands what
its edge does, and more: the automaton in FILE accepts each word that fits, and the other accepts none.

--stream reads automata from FILE, one after the other, and writes the answer for each in turn, each with
the same other automaton. For an automaton that is stopped by --ABORT-- it writes the line `aborted`. If
there is no automaton, nothing is written. The exit status is 6 if one of the answers is `no`, or if there
are fewer than N automata with --at-least N, for which one that is stopped by --ABORT-- is none. If one of
the automata is refused, nothing is written but the line of the refusal.

  $ echo 'HOA: v1 --ABORT-- HOA: v1 Start: 0 AP: 1 \"grant\" Acceptance: 0 t
    --BODY-- State: 0 [0] 0 --END--' | cat - system.hoa | omega contained --in often.hoa --stream
  aborted
  yes
  no

A script that goes on if each automaton keeps the rule asks for one at least, so that it does not go on
where a program wrote none:

  $ omega contained --in often.hoa --stream --at-least 1 < /dev/null; echo $?
  6

Propositions are joined by name. A proposition that only one of the two automata has is free in the
other, so a misspelt name makes no fault. `omega complement`, `omega meet` and `omega empty` answer the
same question in three steps, whose texts have a limit of length; this command has none between.

Faults of the other automaton's text come first, then those of the text in FILE; `omega check --help`
lists them. A text with --ABORT--, with no automaton or with several is not one automaton, and is refused
as 3 Syntax; with --stream that in FILE is not. Then, if a start or an edge of one of them lists several
states joined by &, the refusal is 41 UniversalBranch, and 42 TooManyPropositions, 55 TooLarge and
56 NotDeterministic come as from `omega complement` and `omega meet`. With --verbose another line says
which of the two is refused, `omega: in the other automaton` or `omega: in the automaton`. A file that
can't be read is refused as 61 Io, and with --verbose another line has its name. Files are read before
standard input.

Exit status: 0 yes, 1 a text or the task is refused, 2 the command line is wrong, 4 out of memory, 5 a
read or a write failed, 6 no, or with --stream, one `no`, or fewer automata than --at-least says.";

const OPTIONS: &[OptionHelp] = &[
    OptionHelp {
        name: "in",
        value: Value::Required("FILE"),
        help: "The file with the other automaton, which is deterministic",
    },
    OptionHelp {
        name: "explain",
        value: Value::None,
        help: "Write after `no` a word that only the automaton in FILE accepts",
    },
    STREAM,
    AT_LEAST,
    VERBOSE,
    FILE,
];

/// Returns the subcommand that says whether an automaton accepts only words that another accepts.
pub fn contained_command<'a>(alloc: Global) -> Result<Command<'a>, AllocError>
    ensures { IfOk result (λ command. shape_of command ≡ contained) }
{
    let about = "Say whether a deterministic automaton accepts each word that another accepts";
    subcommand(alloc, "contained", about, DETAILS, OPTIONS)
}
