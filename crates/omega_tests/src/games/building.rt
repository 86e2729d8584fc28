//! A game whose nodes are handed over one by one.
ghost use Rattle.std.specs.Prelude.{◌<◌, length, OnOk};

use omega_game_values::{Game, GameBuilder, Player, Refusal};
use std::alloc::Global;

/// Gives the last node a name of one letter, or answers [Refusal::Io] if no node was added.
fn name(builder: &mut GameBuilder, letter: u8) -> Result<(), Refusal> {
    if builder.len() == 0 || !letter.is_ascii_lowercase() {
        return Err(Refusal::Io);
    }
    builder.set_name(&[letter])
}

/// Lists node 2 as a successor of the last node, or answers [Refusal::Io] if no node was added.
fn list_two(builder: &mut GameBuilder) -> Result<(), Refusal> {
    if builder.len() == 0 {
        return Err(Refusal::Io);
    }
    builder.add_successor(2)
}

/// Hands over three specifications, and names the second twice.
fn hand_over(builder: &mut GameBuilder) -> Result<(), Refusal>
    ensures some { OnOk result (0 < length builder.new) }
{
    builder.add_node(2, 2, Player::One, 0)?;
    builder.add_node(0, 0, Player::Zero, 1)?;
    name(builder, b'a')?;
    list_two(builder)?;
    name(builder, b'b')?;
    builder.add_node(1, 1, Player::One, 0)
}

fn handed_over(alloc: Global) -> Result<Game, Refusal> {
    let mut builder = GameBuilder::new(alloc);
    hand_over(&mut builder)?;
    builder.finish()
}

/// What is read at a place: identifier, priority, owner, name, and the places of the successors and the predecessors.
type Reading = (
    u32,
    u32,
    Player,
    Option<&'static [u8]>,
    &'static [u32],
    &'static [u32],
);

static HANDED_OVER: [Reading; 3] = [
    (0, 0, Player::Zero, Some(b"b"), &[1, 2], &[1, 2]),
    (1, 1, Player::One, None, &[0], &[0]),
    (2, 2, Player::One, None, &[0], &[0]),
];

/// Whether a game has a node at a place, which is found by its identifier, and this is read there.
fn is_read(game: &Game, place: u32, reading: &Reading) -> bool {
    let (id, priority, owner, name, successors, predecessors) = *reading;
    (place as usize) < game.len()
        && game.id(place) == id
        && game.priority(place) == priority
        && game.owner(place) == owner
        && game.name(place) == name
        && game.successors(place) == successors
        && game.predecessors(place) == predecessors
        && game.place_of(id) == Some(place)
}

/// Whether a game has these nodes, and no others.
fn is_game(game: &Game, readings: &[Reading; 3]) -> bool {
    game.len() == 3
        && game.edges() == 4
        && is_read(game, 0, &readings[0])
        && is_read(game, 1, &readings[1])
        && is_read(game, 2, &readings[2])
}

fn is_handed_over(built: Result<Game, Refusal>) -> bool {
    match built {
        Ok(game) => is_game(&game, &HANDED_OVER),
        Err(_) => false,
    }
}

#[test]
fn nodes_are_handed_over_one_by_one(rt: HostRuntime) {
    assert!(rt; is_handed_over(handed_over(rt.alloc())));
}
