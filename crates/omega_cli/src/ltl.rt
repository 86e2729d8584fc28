ghost use Rattle.std.specs.Prelude.{◌≡◌, IfOk};
ghost use Rattle.omega_cli.specs.Program.{ltl};
ghost use Rattle.clap.specs.Words.{shape_of};

use crate::options::{FILE, OptionHelp, VERBOSE, Value};
use crate::subcommand::subcommand;
use clap::Command;
use std::alloc::{AllocError, Global};

const DETAILS: &str = "\
Use it to begin with a formula in place of an automaton. It reads one formula of linear temporal logic
from FILE, or from standard input if there is no FILE or it is -, or takes it from --formula, or -f. It
writes an automaton in the Hanoi format that accepts exactly the words that satisfy the formula; with
--negated, exactly the words that do not.

  $ omega ltl -f 'G(request -> F grant)'
  HOA: v1
  name: \"G(request -> F grant)\"
  States: 2
  Start: 0
  AP: 2 \"request\" \"grant\"
  acc-name: Buchi
  Acceptance: 1 Inf(0)
  --BODY--
  State: 0
  [!0|1] 0 {0}
  [0&!1] 1 {0}
  State: 1
  [1] 0 {0}
  [!1] 1
  --END--

A word gives to each moment 0, 1, 2, .. which names hold in it. It satisfies a formula if that holds at
moment 0. X f holds if f does at the next moment, F f if f does now or later, and G f if f does now and at
each later moment. f U g holds if g does now or later, and f at each moment before; f W g is the same, or
f holds for ever; f R g is !(!f U !g), and f M g is !(!f W !g).

Formulas are written as for Spot. The operators, from those that bind loosest:

  -> =>  <-> <=>        implies, and if and only if; to the right
  | || \\/               or; to the left
  ^ xor                 one of the two and not both; to the left
  & && /\\               and; to the left
  U  R V  W  M          to the right
  ! ~  X ()  F <>  G [] before their operand

A name is a word of letters, digits and underscores that begins with no digit, or any text in quotes. 1 and
true, 0 and false are constants. Where a name could begin, F, G or X is an operator unless a digit follows:
GFa is G F a, and F0 is a name. White space may stand between tokens.

The automaton is made state by state (Couvreur 1999): a state is a set of parts of the formula that are
still to hold. Its name: is the formula, and its propositions are the formula's names in the order in which
they first stand there. Each set of its acceptance has to come again and again: there is one for each part
that promises something, as F, U and M do. It may have choices: see `omega complement` for what is refused
then. `omega trim` drops the states from which nothing is accepted.

--deterministic writes a deterministic automaton with a parity acceptance in its place. It is found by a
search (Safra trees, as nested brackets; a product of the parts of the formula with Zielonka trees), and
then judged as `omega equal -f` judges: only what accepts exactly the words that satisfy the formula is
written. If it does not, which is a fault of the program, the refusal is 59 Unjudged. It has no name:. With
--negated too, it is that of the negated formula, and has its name:.

  $ omega ltl --deterministic -f 'F G a'
  HOA: v1
  States: 1
  Start: 0
  AP: 1 \"a\"
  acc-name: parity min even 3
  Acceptance: 3 Inf(0)|Fin(1)&Inf(2)
  --BODY--
  State: 0
  [!0] 0 {1}
  [0] 0 {2}
  --END--

A formula's text is refused as 4 TooLong over 16777216 bytes, and as 1 Lex or 3 Syntax with the place of the
fault; as 32 TooDeep if it is nested over 256 deep, and else as 55 TooLarge if it has over 4096 operators,
names and constants, or over 64 different names. 55 TooLarge comes too if the automaton would have over
1048576 states or 8388608 edges or labels over their limits, if a state or a part of the formula leads to
over 4096 cases, or if over 64 parts promise something. With --deterministic it comes too if there are over
16 names, or over 12 in one of the formula's parts, or if the search passes its limits. With --negated
besides, the ! counts as an operator: 32 TooDeep comes at a depth of 256, and 55 TooLarge at 4096 operators,
names and constants.

Exit status: 0 done, 1 the text or the task is refused, 2 the command line is wrong, 4 out of memory, 5
a read or a write failed.";

const OPTIONS: &[OptionHelp] = &[
    OptionHelp {
        name: "formula",
        value: Value::OptionalLettered('f', "FORMULA"),
        help: "The formula, in place of that in FILE",
    },
    OptionHelp {
        name: "negated",
        value: Value::None,
        help: "Accept the words that do not satisfy the formula",
    },
    OptionHelp {
        name: "deterministic",
        value: Value::None,
        help: "Write a deterministic automaton, with a parity acceptance",
    },
    VERBOSE,
    FILE,
];

/// Returns the subcommand that writes the automaton of a formula.
pub fn ltl_command<'a>(alloc: Global) -> Result<Command<'a>, AllocError>
    ensures { IfOk result (λ command. shape_of command ≡ ltl) }
{
    let about = "Write an automaton that accepts the words that satisfy a formula";
    subcommand(alloc, "ltl", about, DETAILS, OPTIONS)
}
