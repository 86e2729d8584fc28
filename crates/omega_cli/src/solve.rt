ghost use Rattle.std.specs.Prelude.{◌≡◌, IfOk};
ghost use Rattle.omega_cli.specs.Program.{solve};
ghost use Rattle.clap.specs.Words.{shape_of};

use crate::options::{BUDGET, FILE, LENIENT, OptionHelp, PLAYER, PROGRESS, VERBOSE, Value};
use crate::subcommand::subcommand;
use clap::Command;
use std::alloc::{AllocError, Global};

const DETAILS: &str = "\
Use it to find out who wins a game, and how. Take --search, which is fast. Without it the game is solved
by lifting: take that if you need a bound on the work, which `omega show` writes beforehand. Lifting may
take far longer than there is time for.

The command reads a game from FILE, or from standard input if there is no FILE or it is -. It writes a
header with the greatest identifier, then a line for each node in rising order of identifiers, with the
player who wins from it. If that player owns the node, a successor follows. A player who always moves
there wins from all the nodes that the solution gives to that player, whatever the other does.

  $ echo '0 0 0 1,2; 1 1 1 0; 2 2 1 0;' > game.pg
  $ omega solve --search game.pg
  paritysol 2;
  0 0 2;
  1 0;
  2 0;

Here player 0 wins from all three nodes, moving from node 0 to node 2. `omega verify` checks such a
text without solving the game.

--player P solves the game for that player alone. The first line has the number of lifts that were
made. Then comes a line for each node that the player wins; if the player owns the node, a successor
follows. The other player wins from all other nodes.

  $ echo '0 1 0 1; 1 2 1 0;' | omega solve --player 0
  player 0 lifts 1
  0 1;
  1;

Here player 0 wins from both nodes, moving from node 0 to node 1.

A lift is one step of the solver. For each player it makes at most as many lifts as the bound that
`omega show --format pg` writes, which is known before anything is solved. A bound may be far above what
is needed, and a game may need more time than there is. --budget N stops after N lifts for a player. Then
nothing is written but `omega: 51 Budget` on standard error, and the exit status is 3.

--progress writes a line on standard error each time that 67108864 more lifts were made for a player and
the game is not yet solved for that player, such as `player 0: 67108864 lifts of at most 1099511627776`.
The line has the number of lifts so far, and the bound or, if it is less, the budget. Standard output and
the exit status are the same without it, even if standard error cannot be written.

--search finds winners and choices with Zielonka's recursive algorithm or, if that looks at too many
edges, with tangle learning. It is not proved that these find the right ones. So what they find is written
only after it has passed the proved check of `omega verify`: for each player the choices win from all the
nodes given to that player. No node is won by both players, so the winners that pass the check are right.
The choices may differ from those of lifting. Where both searches give up, the game is solved by lifting,
within the budget; --progress reports on that lifting alone. --search solves for both players, so it does
not go with --player.

Zielonka's algorithm gives up once it has looked at 16 edges for each node and each edge of the game,
tangle learning after 10000000 edges and 4000 more for each node and each edge, but after 4000000000 at
most, or if it has stored 64 words for each node and each edge. --effort N lets both look at N times as
many edges, 1 to 1000 times, and store as many words as before. --by zielonka or --by tangles lets one of
them alone search, and the game is lifted where that one gives up. Both options go with --search.

--verbose, or -v, says on standard error how the game was searched, in a line for each searcher that
searched: whether it found the solution or gave up, and after how many edges, such as `omega: zielonka
gave up after 2416 edges`. If none found it, `omega: the game is lifted` comes next. If 50 TooWide follows,
lifting was too wide after the searches gave up.

  $ omega solve --search --by tangles --effort 10 game.pg
  paritysol 2;
  0 0 2;
  1 0;
  2 0;

--from ID solves the part of the game that is reached from the node with that identifier, and writes
lines for those nodes alone. Who wins them depends on nothing else in the game. If no node has the
identifier, the refusal is 54 UnknownNode. `omega canon --format pg --from ID` writes the part as a game
of its own, and `omega verify --from ID` checks a solution of it.

--lenient reads a game as other tools write it. Comments, from `//` or `#` to the end of the line or
between `/*` and `*/`, and `start N;` are passed over, the last `;` may be missing, and names may have any
bytes. A node without successors loses for its owner. docs/formats.md, *The lenient game text*, has the
rules.

Lifting refuses a game as 50 TooWide if the number of its nodes times the number of its priorities in use
that lose for a player is over 67108864.

Exit status: 0 done, 1 the text or the task is refused, 2 the command line is wrong, 3 the budget is
used up, 4 out of memory, 5 a read or a write failed.";

const OPTIONS: &[OptionHelp] = &[
    PLAYER,
    OptionHelp {
        name: "from",
        value: Value::Optional("ID"),
        help: "Solve only the part that the node with this identifier reaches",
    },
    OptionHelp {
        name: "search",
        value: Value::None,
        help: "Solve by a search whose answer is judged, which is far quicker on large games",
    },
    OptionHelp {
        name: "by",
        value: Value::Optional("SEARCHER"),
        help: "With --search, let this searcher alone search: zielonka or tangles",
    },
    OptionHelp {
        name: "effort",
        value: Value::Optional("N"),
        help: "With --search, let each searcher go N times as far, 1 to 1000",
    },
    BUDGET,
    PROGRESS,
    LENIENT,
    VERBOSE,
    FILE,
];

/// Returns the subcommand that solves a game.
pub fn solve_command<'a>(alloc: Global) -> Result<Command<'a>, AllocError>
    ensures { IfOk result (λ command. shape_of command ≡ solve) }
{
    let about = "Find who wins each node of a game, and how";
    subcommand(alloc, "solve", about, DETAILS, OPTIONS)
}
