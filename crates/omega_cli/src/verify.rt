ghost use Rattle.std.specs.Prelude.{◌≡◌, IfOk};
ghost use Rattle.omega_cli.specs.Program.{verify};
ghost use Rattle.clap.specs.Words.{shape_of};

use crate::options::{
    AUTOMATON, EXPLAIN, FILE, GAME, INS, LENIENT, OUTS, OptionHelp, VERBOSE, Value,
};
use crate::subcommand::subcommand;
use clap::Command;
use std::alloc::{AllocError, Global};

const DETAILS: &str = "\
Use it to check an answer, whoever made it: a solution of a game, a lasso of an automaton, or a
controller, also as a circuit, or a counter-strategy for a specification. It reads the answer from FILE,
or from standard input if there is no FILE or it is -, and the game, the automaton or the specification
from the file that --game, --automaton or --specification names; or it takes a formula from --formula, or
-f. It writes `yes` if the answer is right, and `no` if not. One of the four has to be given, and no two
of them.

--game FILE checks a solution of the game in FILE. The solution is right if for each player the choices
win from all the nodes that it gives to that player. The game is not solved: only the choices are
followed.

  $ echo '0 0 0 1,2; 1 1 1 0; 2 2 1 0;' > game.pg
  $ echo 'paritysol 2; 0 0 2; 1 0; 2 0;' > solution.txt
  $ omega verify --game game.pg solution.txt
  yes
  $ echo 'paritysol 2; 0 0 1; 1 0; 2 0;' | omega verify --game game.pg --explain
  no
  player 0
  stem
  cycle 1 0

In the second solution player 0 moves from node 0 to node 1, back to it, and so on. The greatest priority
on the way is 1, which is odd.

With --explain three lines follow `no`. The first names the first player whose choices do not win. The
other two have the nodes of a walk that these choices leave possible, from a node given to that player.
From the last node of the cycle the walk goes back to the first. The greatest priority on the cycle loses
for the player. With --names too, the name of a node stands after its identifier, if it has one. Without
--explain, and with --winners, it is a fault. `omega draw --walk` draws the walk.

  $ echo '0 0 0 1,2; 1 1 1 0 \"request\"; 2 2 1 0;' > named.pg
  $ echo 'paritysol 2; 0 0 1; 1 0; 2 0;' | omega verify --game named.pg --explain --names
  no
  player 0
  stem
  cycle 1 \"request\" 0

--from ID judges a solution of the part of the game that is reached from the node with that identifier,
as `omega solve --from ID` writes it; the file has the whole game. If no node has the identifier,
the refusal is 54 UnknownNode. It goes with --game only.

  $ echo '0 0 0 1; 1 1 1 1; 2 2 0 0;' > game.pg
  $ omega solve --from 0 game.pg | omega verify --game game.pg --from 0
  yes

--winners judges the winners alone: the solution is right if each node is won by the player to whom it
gives the node. Its choices are passed over, whatever they are. For this the game is solved, as
`omega solve --search` solves it: if the search finds nothing and lifting does not solve the game, the
refusal is 50 TooWide, or after 1099511627776 lifts 51 Budget. After `no` comes the first node whose
winner is wrong, with the player who wins it, and with --explain a solution of the game, or of the part.
It goes with --game only.

  $ echo '0 0 0 1,2; 1 1 1 0; 2 2 1 0;' > game.pg
  $ echo 'paritysol 2; 0 1; 1 1 0; 2 1 0;' | omega verify --winners --game game.pg --explain
  no
  node 0 player 0
  paritysol 2;
  0 0 2;
  1 0;
  2 0;

--lenient reads the game and the solution as other tools write them. Of a game, comments and `start N;`
are passed over, the last `;` may be missing, names may have any bytes, and a node without successors
loses for its owner. Of a solution, comments, names and -1 in place of a successor are passed over. In
docs/formats.md, *The lenient game text* and *The lenient solution text* have the rules. It goes with
--game only.

A solution text is what `omega solve` writes: a header with the greatest identifier of the game, or of
the part, then a line for each node in rising order of identifiers, with the player who wins from it
and, exactly where that player owns the node, one of its successors. Any other text of this kind is
refused as 53 BadSolution.

--automaton FILE checks a lasso of the automaton in FILE. The lasso is right if the automaton accepts it.
Then its stem leads from a start to a state, and its cycle from there back to it; each of its edges has a
label that some set of propositions makes true, or no label; and the acceptance formula holds of the
marks of the cycle. The acceptance formula may be any. The lasso is only followed, and no lasso is
searched for.

  $ echo 'HOA: v1 States: 2 Start: 0 acc-name: co-Buchi Acceptance: 1 Fin(0)
    --BODY-- State: 0 [t] 0 {0} [t] 1 State: 1 [t] 1 --END--' > automaton.hoa
  $ omega empty --search automaton.hoa | omega verify --automaton automaton.hoa
  yes
  $ echo 'stem cycle 0' | omega verify --automaton automaton.hoa --explain
  no
  the cycle does not accept

With --explain a line follows `no` that says what is wrong with the lasso: the first edge that is not
there, or that can't be taken where it stands; or that the cycle does not close, or does not accept.

A lasso text is what `omega empty` writes: `stem` and numbers of edges, then `cycle` and at least one,
with white space between them. What --word and --names add is passed over: a line that begins with
`word ` or `run ` and all after it. The edges of the body are numbered from 0 in the order of the text,
through all states. A number that no edge has is no fault of the text: the answer is `no`. A start or an
edge of the automaton that lists several states joined by & is refused as 41 UniversalBranch.
42 TooManyPropositions comes only where a label of one of the lasso's edges mentions over 12
propositions, and 4194304 steps do not decide whether it can hold.

--specification FILE checks a controller for the specification in FILE, a deterministic automaton whose
item `controllable-AP:` lists the propositions that the system controls, as `omega realize` reads it; its
acceptance may be any. The controller is an automaton that accepts all its words: its acceptance is named
all, or its formula is t. Its propositions are those of the specification, by name, and its item
`controllable-AP:` says the same of them. It is right if in each state that it can reach it has an edge for
every letter of the environment, and the specification accepts each of its words.

  $ echo 'HOA: v1 States: 1 Start: 0 AP: 2 \"request\" \"grant\" controllable-AP: 1
    acc-name: parity max even 1 Acceptance: 1 Inf(0)
    --BODY-- State: 0 [!0|1] 0 {0} --END--' > arbiter.hoa
  $ omega realize --controller arbiter.hoa | omega verify --specification arbiter.hoa
  yes

The controller may be a circuit in the AIGER format, in ASCII or in binary: a text that begins with `aag `
or `aig `, also after a line `REALIZABLE`, is read as one. It is right if the specification accepts each
word of the circuit, which `omega automaton` makes an automaton of. A proposition that the circuit does not
name is open, and what it says of others is passed over. If the specification has the item
`controllable-AP:`, an input with the name of a proposition of the system, or an output with the name of
one of the environment, is refused as 58 Controllable.

  $ omega realize --aiger arbiter.hoa | omega verify --specification arbiter.hoa
  yes
  $ printf 'aag 1 1 0 1 0\\n2\\n3\\ni0 request\\no0 grant\\n' |
    omega verify --specification arbiter.hoa
  no

With --explain three lines follow `no`: a lasso of the automaton that `omega automaton` writes of the
circuit, and a word along it, as `omega contained` writes both. Other refusals come as from these two.

With --counter-strategy too, it checks a counter-strategy for the specification: a strategy of the
environment against which no system satisfies it. The automaton has the same form, and has to be
deterministic, as the specification has to be. It is right if it has a start where the specification has
one, if in each two states that both reach by the same letters the environment has a letter so that the
counter-strategy has an edge for every answer of the system for which the specification has one, and if
the specification accepts none of its words. --counter-strategy goes with --specification, or with -f.

  $ sed 's/controllable-AP: 1/controllable-AP:/' arbiter.hoa > impossible.hoa
  $ omega realize --controller impossible.hoa > counter.hoa
  $ omega verify --specification impossible.hoa --counter-strategy counter.hoa
  yes

--formula, or -f, gives a formula in place of the specification, written as for `omega ltl`. --outs lists
the names of its propositions that the system controls, and --ins those that the environment controls, as
for `omega realize`; one of the two is enough. The controller is right if it has a start, if in each state
that it can reach it has an edge for every letter of the environment, and if each of its words satisfies
the formula. A circuit is read in its place too. With --counter-strategy none of its words may satisfy
the formula, and no circuit is read. Propositions that the formula does
not mention are the environment's. If the automaton has the item `controllable-AP:`, this has to list
exactly its propositions that the system controls.

  $ omega realize --controller -f 'G(request -> X grant)' --outs grant > controller.hoa
  $ omega verify -f 'G(request -> X grant)' --outs grant controller.hoa
  yes

If both texts are at fault, the fault of the game, the automaton, the specification or the formula is
reported. With --verbose another line says which text has the fault: `omega: in the game` or
`omega: in the solution`, `omega: in the automaton` or `omega: in the lasso`, and
`omega: in the specification` or `omega: in the formula`, `omega: in the controller` or
`omega: in the counter-strategy`.

  $ echo 'paritysol 2; 0 0 2; 1 0; 2 0' | omega verify --game game.pg
  omega: 3 Syntax at 29
  $ echo 'stem 0 cycle' | omega verify --verbose --automaton automaton.hoa
  omega: 3 Syntax at 13
  omega: in the lasso
  omega: line 2, column 1: end of the text

A file that can't be read is refused as 61 Io, and with --verbose another line has its name. Files are
read before standard input.

Exit status: 0 yes, 1 a text or the task is refused, 2 the command line is wrong, 3 the greatest budget
is used up, 4 out of memory, 5 a read or a write failed, 6 no.";

const OPTIONS: &[OptionHelp] = &[
    GAME,
    AUTOMATON,
    OptionHelp {
        name: "specification",
        value: Value::Optional("FILE"),
        help: "Judge a controller, or a circuit, for the specification in this file",
    },
    OptionHelp {
        name: "formula",
        value: Value::OptionalLettered('f', "FORMULA"),
        help: "Judge a controller, or a circuit, for this formula, as `omega ltl` reads one",
    },
    OUTS,
    INS,
    OptionHelp {
        name: "counter-strategy",
        value: Value::None,
        help: "With --specification or --formula, judge a counter-strategy in place of a controller",
    },
    OptionHelp {
        name: "winners",
        value: Value::None,
        help: "Judge the winners of a solution, and not its choices",
    },
    OptionHelp {
        name: "from",
        value: Value::Optional("ID"),
        help: "Judge a solution of only the part that the node with this identifier reaches",
    },
    EXPLAIN,
    OptionHelp {
        name: "names",
        value: Value::None,
        help: "With --explain, write the names of the nodes of the walk too",
    },
    LENIENT,
    VERBOSE,
    FILE,
];

/// Returns the subcommand that checks a solution of a game, a lasso of an automaton, a controller or a
/// counter-strategy.
pub fn verify_command<'a>(alloc: Global) -> Result<Command<'a>, AllocError>
    ensures { IfOk result (λ command. shape_of command ≡ verify) }
{
    let about =
        "Say whether a solution of a game, a lasso of an automaton, or a controller is right";
    subcommand(alloc, "verify", about, DETAILS, OPTIONS)
}
