//! Tables of measures, lifted step by step.
ghost use Rattle.std.specs.Prelude.{◌≡◌, ◌<◌, length, IfOk};

use crate::rows::assert_row;
use omega_game_values::{Game, GameBuilder, Player, Refusal};
use omega_measure::{MeasureTable, PackedTable, PlainTable};
use std::alloc::Global;
use std::cmp::Ordering;
use std::cmp::Ordering::{Equal, Greater, Less};

/// Returns a game in which each node is its own successor: measures depend on the priorities alone. Answers
/// [Refusal::Io] if there are none or too many.
fn game_of(alloc: Global, priorities: &[u16]) -> Result<Game, Refusal> {
    if priorities.is_empty() || priorities.len() > 64 {
        return Err(Refusal::Io);
    }
    let mut builder = GameBuilder::new(alloc);
    for place in 0..priorities.len() {
        let id = place as u32;
        builder.add_node(id, u32::from(priorities[place]), Player::Zero, id)?;
    }
    builder.finish()
}

/// Raises `v` to its allowance towards `w` if that is due, and says whether it was.
fn lift<T: MeasureTable>(table: &mut T, places: u32, v: u32, w: u32) -> bool
    requires places { length (T.content table.old).measures ≡ places }
    requires lifted { v < places }
    requires towards { w < places }
    ensures { length (T.content table.new).measures ≡ places }
{
    let due = table.due(v, w);
    if due {
        table.raise(v, w);
    }
    due
}

/// A place and the one towards which it is lifted, and whether that is due; then another place and a priority, and how
/// the first compares with it there; and whether the first is then at top.
type Step = ((u32, u32), bool, (u32, u32), Ordering, bool);

/// Takes a table over `places` places through a step. Whether it is as the step says.
fn holds<T: MeasureTable>(table: &mut T, places: u32, step: &Step) -> bool
    requires { length (T.content table.old).measures ≡ places }
    ensures { length (T.content table.new).measures ≡ places }
{
    let ((v, w), due, (other, p), order, top) = *step;
    v < places
        && w < places
        && other < places
        && lift(table, places, v, w) == due
        && table.compare(v, other, p) == order
        && table.is_top(v) == top
}

/// Takes a table over `places` places through the steps. Whether it is as each says.
fn follows<T: MeasureTable>(table: &mut T, places: u32, steps: &[Step]) -> bool
    requires { length (T.content table.old).measures ≡ places }
{
    for step in steps {
        if !holds(table, places, step) {
            return false;
        }
    }
    true
}

/// Returns a new table, and how many places it has.
fn prepared_table<T: MeasureTable>(
    alloc: Global,
    game: &Game,
    player: Player,
) -> Result<(T, u32), Refusal>
    ensures { IfOk result (λ both. length (T.content both.0).measures ≡ both.1) }
{
    Ok((T::prepare(alloc, game, player)?, game.len() as u32))
}

/// Takes a new table of a player over a game through the steps.
fn follows_new<T: MeasureTable>(
    alloc: Global,
    game: &Game,
    player: Player,
    steps: &[Step],
) -> bool {
    match prepared_table::<T>(alloc, game, player) {
        Ok((mut table, places)) => follows(&mut table, places, steps),
        Err(_) => false,
    }
}

/// Priorities of a game, a player, and steps of the player's table.
type Lifts = (&'static [u16], Player, &'static [Step]);

/// Whether a new table is as the steps say.
fn is_lifted<T: MeasureTable>(alloc: Global, lifts: &Lifts) -> bool {
    let (priorities, player, steps) = *lifts;
    match game_of(alloc, priorities) {
        Ok(game) => follows_new::<T>(alloc, &game, player, steps),
        Err(_) => false,
    }
}

// For player 0 a measure over these priorities has an entry for 3 and one for 1, each at most 1, and for player 1 one
// for 4, at most 1.
const EXAMPLE: [u16; 3] = [1, 3, 4];

/// Entries of (3, 1), by hand. The allowance of node 0 (priority 1, which loses) towards itself goes through (0, 1),
/// (1, 0), (1, 1) and top. That of node 1 (priority 3) towards node 2 is (1, 0). Node 2 (priority 4) has none to raise.
const LIFTS_OF_ZERO: [Step; 12] = [
    ((2, 2), false, (1, 0), Equal, false),
    ((1, 2), true, (2, 3), Greater, false),
    ((1, 2), false, (2, 4), Equal, false),
    ((0, 0), true, (2, 1), Greater, false),
    ((0, 2), false, (1, 1), Less, false),
    ((0, 0), true, (1, 0), Equal, false),
    ((0, 1), true, (1, 1), Greater, false),
    ((0, 1), false, (1, 2), Equal, false),
    ((0, 0), true, (1, 9), Greater, true),
    ((0, 0), false, (1, 3), Greater, true),
    ((2, 0), true, (0, 0), Equal, true),
    ((1, 2), true, (0, 1), Equal, true),
];

/// Entries of (4), by hand.
const LIFTS_OF_ONE: [Step; 6] = [
    ((0, 1), false, (1, 0), Equal, false),
    ((2, 2), true, (1, 4), Greater, false),
    ((0, 1), false, (2, 5), Equal, false),
    ((1, 2), true, (2, 0), Equal, false),
    ((2, 1), true, (1, 4), Greater, true),
    ((0, 2), true, (2, 0), Equal, true),
];

/// The odd priorities up to 127.
const ODD: [u16; 64] = [
    1, 3, 5, 7, 9, 11, 13, 15, 17, 19, 21, 23, 25, 27, 29, 31, 33, 35, 37, 39, 41, 43, 45, 47, 49,
    51, 53, 55, 57, 59, 61, 63, 65, 67, 69, 71, 73, 75, 77, 79, 81, 83, 85, 87, 89, 91, 93, 95, 97,
    99, 101, 103, 105, 107, 109, 111, 113, 115, 117, 119, 121, 123, 125, 127,
];

/// Entries of the odd priorities from 127 down to 1, each at most 1: packed, that for 1 is alone in a second word. Node
/// 0 (priority 1) counts there and carries to the entry for 3, the last of the first word, and from there to that for
/// 5.
const LIFTS_OVER_WORDS: [Step; 10] = [
    ((0, 0), true, (1, 1), Greater, false),
    ((0, 0), true, (1, 3), Greater, false),
    ((0, 1), false, (1, 4), Equal, false),
    ((0, 0), true, (1, 4), Equal, false),
    ((0, 0), true, (1, 5), Greater, false),
    ((0, 1), false, (1, 6), Equal, false),
    ((1, 0), true, (0, 3), Greater, false),
    ((1, 0), false, (0, 5), Equal, false),
    ((63, 63), true, (0, 0), Greater, false),
    ((63, 63), true, (0, 127), Greater, true),
];

static LIFTS: [Lifts; 3] = [
    (&EXAMPLE, Player::Zero, &LIFTS_OF_ZERO),
    (&EXAMPLE, Player::One, &LIFTS_OF_ONE),
    (&ODD, Player::Zero, &LIFTS_OVER_WORDS),
];

#[test]
fn lifts_are_those_found_by_hand(rt: HostRuntime) {
    for (row, lifts) in LIFTS.iter().enumerate() {
        assert_row(&rt, row, is_lifted::<PlainTable>(rt.alloc(), lifts));
        assert_row(&rt, row, is_lifted::<PackedTable>(rt.alloc(), lifts));
    }
}
