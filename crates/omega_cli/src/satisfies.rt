ghost use Rattle.std.specs.Prelude.{◌≡◌, IfOk};
ghost use Rattle.omega_cli.specs.Program.{satisfies};
ghost use Rattle.clap.specs.Words.{shape_of};

use crate::options::{AT_LEAST, FILE, OptionHelp, STREAM, VERBOSE, Value};
use crate::subcommand::subcommand;
use clap::Command;
use std::alloc::{AllocError, Global};

const DETAILS: &str = "\
Use it to find out whether a system keeps a rule that is a formula of linear temporal logic. It reads one
automaton in the Hanoi format, the system's, from FILE, or from standard input if there is no FILE or it is
-. It writes `yes` if each word that the automaton accepts satisfies FORMULA, and `no` if not.

  $ echo 'HOA: v1 States: 2 Start: 0 AP: 2 \"request\" \"grant\" acc-name: all Acceptance: 0 t
    --BODY-- State: 0 [0] 1 State: 1 [1] 0 [!1] 1 --END--' > system.hoa
  $ omega satisfies -f 'G F grant -> G F request' system.hoa
  yes
  $ omega satisfies -f 'G(request -> F grant)' --explain system.hoa
  no
  stem 0
  cycle 2
  word request & !grant; cycle{!grant}

The system need not grant: after a request it may go on for ever without. With --explain three lines follow
`no`: an accepting lasso of the automaton, which `omega verify --automaton` judges, and a word along it, as
`omega empty --word` writes both. Each word that fits its letters is accepted along the lasso, and does not
satisfy FORMULA.

The automaton may have choices, and any acceptance. FORMULA is written as for `omega ltl`, whose help says
what it means. A name of it is the proposition of that name. One that the automaton does not have is free,
so a misspelt name makes no fault. With --verbose a line on standard error names each such name:

  $ omega satisfies -v -f 'G(request -> F grent)' system.hoa
  no
  omega: the automaton has no proposition \"grent\"

Several formulas are answered one after the other, in the order of their options, each as if it were the
only one. The automaton is read once. The exit status is 6 if one of the answers is `no`. If a text is
refused, or the task for one of the formulas, nothing is written but the lines of the refusal.

  $ omega satisfies -f 'G F grant -> G F request' -f 'G(request -> F grant)' system.hoa
  yes
  no

--stream reads automata from FILE, one after the other, and writes the answer for each in turn; of several
formulas those for the first automaton, then those for the second, and so on. For an automaton that is
stopped by --ABORT-- it writes the line `aborted` in place of each answer. If there is no automaton, nothing
is written. The exit status is 6 if one of the answers is `no`, or if there are fewer than N automata with
--at-least N, for which one that is stopped by --ABORT-- is none. If one of the automata is refused, nothing
is written but the lines of the refusal. --verbose names no propositions then.

  $ echo 'HOA: v1 --ABORT-- HOA: v1 Start: 0 AP: 1 \"grant\" Acceptance: 0 t
    --BODY-- State: 0 [0] 0 --END--' | cat - system.hoa | omega satisfies -f 'G F grant' --stream
  aborted
  yes
  no

--word asks instead whether each word that WORD admits satisfies FORMULA, and no automaton is read. WORD is
written as for `omega accepts`. With --explain one line follows `no`, a word: each word that it admits is
admitted by WORD, and does not satisfy FORMULA.

  $ omega satisfies -f 'G(request -> F grant)' --word 'request; cycle{grant; !grant}'
  yes
  $ omega satisfies -f 'G F grant' --word 'cycle{request}'
  no

It is answered by the automaton of the negated formula, which `omega ltl --negated` writes: is there a word
that both accept?

Faults of FORMULA come first, those of `omega ltl` with the place in FORMULA, then those of the text in
FILE, which `omega check --help` lists, or those of WORD, as from `omega accepts`. Of several formulas all
are read first, in their order. A text with --ABORT--, with no automaton or with several is not one
automaton, and is refused as 3 Syntax, but not with --stream. Then, if a start or an edge lists several
states joined by &, the refusal is 41 UniversalBranch, or else it is 55 TooLarge if the automaton of the
negated formula, or its product with that in FILE, is over a limit. 42 TooManyPropositions comes as from
`omega meet`. With --verbose another line says which of the texts is refused, `omega: in the formula`,
`omega: in the automaton` or `omega: in the word`. Of several formulas it is `omega: in formula N`, or of
the refusals that come of no text alone `omega: at formula N`; the first has the number 1. A file that
can't be read is refused as 61 Io, and with --verbose another line has its name.

Exit status: 0 yes, 1 a text or the task is refused, 2 the command line is wrong, 4 out of memory, 5 a
read or a write failed, 6 no, or of several formulas or automata, one `no`, or fewer automata than
--at-least says.";

const OPTIONS: &[OptionHelp] = &[
    OptionHelp {
        name: "formula",
        value: Value::RequiredRepeated('f', "FORMULA"),
        help: "A formula, as `omega ltl` reads one; of several each is answered in turn",
    },
    OptionHelp {
        name: "word-text",
        value: Value::OptionalAs("word", "WORD"),
        help: "Ask of the words that WORD admits in place of an automaton's, as `omega accepts` does",
    },
    OptionHelp {
        name: "explain",
        value: Value::None,
        help: "Write after `no` a lasso of the automaton, and a word that does not satisfy FORMULA",
    },
    STREAM,
    AT_LEAST,
    VERBOSE,
    FILE,
];

/// Returns the subcommand that says whether each word of an automaton satisfies a formula.
pub fn satisfies_command<'a>(alloc: Global) -> Result<Command<'a>, AllocError>
    ensures { IfOk result (λ command. shape_of command ≡ satisfies) }
{
    let about = "Say whether each word that an automaton accepts satisfies a formula";
    subcommand(alloc, "satisfies", about, DETAILS, OPTIONS)
}
