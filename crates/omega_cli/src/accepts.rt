ghost use Rattle.std.specs.Prelude.{◌≡◌, IfOk};
ghost use Rattle.omega_cli.specs.Program.{accepts};
ghost use Rattle.clap.specs.Words.{shape_of};

use crate::options::{FILE, OptionHelp, VERBOSE, Value};
use crate::subcommand::subcommand;
use clap::Command;
use std::alloc::{AllocError, Global};

const DETAILS: &str = "\
Use it to ask of single words whether an automaton accepts them, as of a run that was seen. It reads one
automaton in the Hanoi format from FILE, or from standard input if there is no FILE or it is -. It writes
`yes` if the automaton accepts each word that WORD admits, and `no` if not. The automaton has to be
deterministic, or WORD has to be one word for it.

  $ echo 'HOA: v1 States: 1 Start: 0 AP: 1 \"a\" acc-name: Buchi Acceptance: 1 Inf(0)
    --BODY-- State: 0 [0] 0 {0} [!0] 0 --END--' > often.hoa
  $ omega accepts --word '!a; cycle{a; !a}' often.hoa
  yes
  $ omega accepts --word 'a; cycle{a | b}' --explain often.hoa
  no
  word a; cycle{(a | b) & !a}

The automaton says that a holds again and again. It does in the first word. WORD in the second command
admits many words, as a letter says of some names whether they hold, and leaves others open.

WORD is written as `omega empty --word` and Spot write words: letters with ; after each, and then those of
the cycle, with ; between them, as cycle{a; !a}. The cycle is repeated for ever. A letter is a formula of
names, 1 for true, 0 for false, !, & and |, which bind in this order, and parentheses. A name stands in
quotes, or bare if it is an identifier that Spot reads as a name. It is that of a proposition, or of none
of the automaton's. White space and comments stand between tokens as in the Hanoi format.

A letter fixes a proposition if that holds wherever the letter is true, or nowhere there: a & !b fixes a
and b, and a leaves b open. If each letter fixes each proposition of the automaton, that sees one word at
most, and may have choices.

  $ echo 'HOA: v1 States: 2 Start: 0 AP: 1 \"a\" acc-name: Buchi Acceptance: 1 Inf(0)
    --BODY-- State: 0 [t] 0 [0] 1 State: 1 [0] 1 {0} --END--' | omega accepts --word '!a; cycle{a}'
  yes

Each time that the cycle comes round, its letters may be met otherwise. If no word is admitted, as by
cycle{a & !a}, nothing speaks against it, and the answer is `yes`. With --explain a line follows `no`, a
word that is written as WORD is: each word that it admits is admitted by WORD, and the automaton accepts
none of these.

--some asks instead whether the automaton accepts some word that WORD admits, as Spot's `autfilt
--accept-word` does. The automaton may have choices, and is never refused 56. If no word is admitted, the
answer is `no`. With --explain three lines follow `yes`: an accepting lasso of the automaton, as
`omega empty` writes it, and a word. Each word that fits its letters is admitted by WORD, and the automaton
accepts it along the lasso.

  $ omega accepts --some --word 'a; cycle{a | b}' --explain often.hoa
  yes
  stem 0
  cycle 0
  word a; cycle{a & (a | b)}

Faults of WORD come first, 1 Lex, 2 Number or 3 Syntax with the place in WORD, then those of the text in
FILE; `omega check --help` lists them. A text with --ABORT--, with no automaton or with several is not one
automaton, and is refused as 3 Syntax. 55 TooLarge comes if WORD has over 1024 names, or if a letter is
over a limit of labels. Then 41 UniversalBranch, 42 TooManyPropositions, 55 TooLarge and
56 NotDeterministic come as from `omega contained`, but 56 only if a letter leaves a proposition open.
With --verbose another line says which of the two is refused, `omega: in the word` or
`omega: in the automaton`. A file that can't be read is refused as 61 Io, and with --verbose another line
has its name.

Exit status: 0 yes, 1 a text or the task is refused, 2 the command line is wrong, 4 out of memory, 5 a
read or a write failed, 6 no.";

const OPTIONS: &[OptionHelp] = &[
    OptionHelp {
        name: "word-text",
        value: Value::RequiredAs("word", "WORD"),
        help: "The word, as `omega empty --word` writes one, with a formula for each letter",
    },
    OptionHelp {
        name: "some",
        value: Value::None,
        help: "Ask whether the automaton accepts some word that WORD admits, and not each",
    },
    OptionHelp {
        name: "explain",
        value: Value::None,
        help: "Write after `no`, or with --some after `yes`, a word that shows it",
    },
    VERBOSE,
    FILE,
];

/// Returns the subcommand that says whether an automaton accepts the words that a word of formulas admits.
pub fn accepts_command<'a>(alloc: Global) -> Result<Command<'a>, AllocError>
    ensures { IfOk result (λ command. shape_of command ≡ accepts) }
{
    let about = "Say whether an automaton accepts a word, with a formula for each letter";
    subcommand(alloc, "accepts", about, DETAILS, OPTIONS)
}
