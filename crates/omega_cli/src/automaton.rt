ghost use Rattle.std.specs.Prelude.{◌≡◌, IfOk};
ghost use Rattle.omega_cli.specs.Program.{automaton};
ghost use Rattle.clap.specs.Words.{shape_of};

use crate::options::{FILE, OptionHelp, VERBOSE};
use crate::subcommand::subcommand;
use clap::Command;
use std::alloc::{AllocError, Global};

const DETAILS: &str = "\
Use it to ask of a circuit what the other commands ask of automata. It reads a circuit in the AIGER
format, in ASCII or in binary, from FILE, or from standard input if there is no FILE or it is -. It writes
an automaton in canonical form that accepts exactly the words of the circuit.

  $ printf 'aag 3 2 1 2 0\\n2\\n4\\n6 7\\n7\\n6\\no0 first\\no1 second\\n' > turns.aag
  $ omega automaton turns.aag
  HOA: v1
  States: 2
  Start: 0
  AP: 4 \"i0\" \"i1\" \"first\" \"second\"
  acc-name: all
  Acceptance: 0 t
  controllable-AP: 2 3
  --BODY--
  State: 0 \"0\"
  [2&!3] 1
  State: 1 \"1\"
  [!2&3] 0
  --END--
  $ omega automaton turns.aag | omega satisfies -f 'G F first'
  yes

The circuit has two inputs, a latch that begins with 0 and changes in each round, and two outputs, which
hold by turns. A word of it says of each round which inputs and which outputs hold. What other names say
is free.

The propositions are the inputs and then the outputs, in their order and by their symbols. An input
without a symbol is named i0, i1, .. and an output o0, o1, .. by its position. `controllable-AP:` lists
the outputs, and each run is accepted. The states are the values of all latches that are reached, numbered
breadth first, and a state is named by them, one digit for each latch. In each state each letter of the
inputs fits the label of one edge. A label says of all outputs whether they hold, and only of those inputs
that matter there.

Faults of the text come first; `omega check --help` lists them. Then the refusal is 26 Proposition if two
inputs or outputs have one name, or if they are over 1024, and else 78 Name if a name can't stand between
quotes in the Hanoi format: if it has a quote without a backslash before it, or ends with a backslash.
55 TooLarge comes if there are over 1048576 states or 8388608 edges, or labels over their limits.

Exit status: 0 done, 1 the text or the task is refused, 2 the command line is wrong, 4 out of memory, 5
a read or a write failed.";

const OPTIONS: &[OptionHelp] = &[VERBOSE, FILE];

/// Returns the subcommand that writes the automaton of a circuit.
pub fn automaton_command<'a>(alloc: Global) -> Result<Command<'a>, AllocError>
    ensures { IfOk result (λ command. shape_of command ≡ automaton) }
{
    let about = "Write an automaton that accepts the words of a circuit";
    subcommand(alloc, "automaton", about, DETAILS, OPTIONS)
}
