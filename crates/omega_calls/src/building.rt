//! Games built of nodes, and by a builder.
ghost use Rattle.std.specs.Prelude.{◌<◌, length, OnOk};

use omega_game::{Game, GameBuilder, MOST_NUMBER, NodeSpec, Player, Refusal, Seq};
use omega_pg::write_game;
use std::alloc::Global;

fn text_of_game(alloc: Global, game: Result<Game, Refusal>) -> Result<Vec<u8>, Refusal> {
    match game {
        Ok(game) => write_game(alloc, game.forward_game()),
        Err(refusal) => Err(refusal),
    }
}

/// Returns the game of two nodes, one of them with a name.
pub(crate) fn of_two(alloc: Global) -> Result<Vec<u8>, Refusal> {
    text_of_game(alloc, built_of_two(alloc))
}

fn built_of_two(alloc: Global) -> Result<Game, Refusal> {
    let first = Seq::from_vec(Vec::from_slice(alloc, &[7, 3])?);
    let second = Seq::from_vec(Vec::from_slice(alloc, &[7])?);
    let name = Seq::from_vec(Vec::from_slice(alloc, &[b'n'])?);
    let specs = vec![in alloc;
        NodeSpec {
            id: 7,
            priority: 1,
            owner: Player::One,
            successors: first,
            name: None
        },
        NodeSpec {
            id: 3,
            priority: 2,
            owner: Player::Zero,
            successors: second,
            name: Some(name)
        },
    ]?;
    Game::build(alloc, specs)
}

/// Returns a game, its nodes handed to a builder one by one.
pub(crate) fn built_again(alloc: Global, game: &Game) -> Result<Vec<u8>, Refusal> {
    let mut builder = GameBuilder::with_room(alloc, 1, 1)?;
    match fill(&mut builder, game) {
        Ok(()) => text_of_game(alloc, builder.finish()),
        Err(refusal) => Err(refusal),
    }
}

/// Adds the nodes of a game, and refuses one that has none.
fn fill(builder: &mut GameBuilder, game: &Game) -> Result<(), Refusal>
    ensures { OnOk result (0 < length builder.new) }
{
    for place in 0..game.len() as u32 {
        add_node(builder, game, place)?;
    }
    if builder.len() == 0 {
        return Err(Refusal::Io);
    }
    Ok(())
}

/// Adds the node at a place, with a name. A refused request adds nothing, so that it may be added once more.
fn add_node(builder: &mut GameBuilder, game: &Game, place: u32) -> Result<(), Refusal>
    requires { place < length game.now }
{
    let Some((first, others)) = game.successors(place).split_first() else {
        return Err(Refusal::Io);
    };
    let (id, priority, owner) = (game.id(place), game.priority(place), game.owner(place));
    add_again(builder, id, priority, owner, id_at(game, *first))?;
    list_all(builder, game, others)?;
    name_again(builder)
}

fn list_all(builder: &mut GameBuilder, game: &Game, places: &[u32]) -> Result<(), Refusal> {
    for place in places {
        list_again(builder, id_at(game, *place))?;
    }
    Ok(())
}

/// Returns the identifier at a place, or a number that is none if there is no such place.
fn id_at(game: &Game, place: u32) -> u32 {
    if (place as usize) < game.len() {
        game.id(place)
    } else {
        u32::MAX
    }
}

fn add_again(
    builder: &mut GameBuilder,
    id: u32,
    priority: u32,
    owner: Player,
    first: u32,
) -> Result<(), Refusal> {
    if id > MOST_NUMBER || priority > MOST_NUMBER || first > MOST_NUMBER {
        return Err(Refusal::Io);
    }
    let count = builder.len();
    match builder.add_node(id, priority, owner, first) {
        Err(Refusal::Memory) if builder.len() != count => Err(Refusal::Io),
        Err(Refusal::Memory) => builder.add_node(id, priority, owner, first),
        given => given,
    }
}

fn list_again(builder: &mut GameBuilder, successor: u32) -> Result<(), Refusal> {
    if builder.len() == 0 || successor > MOST_NUMBER {
        return Err(Refusal::Io);
    }
    match builder.add_successor(successor) {
        Err(Refusal::Memory) if builder.len() != 0 => builder.add_successor(successor),
        given => given,
    }
}

/// Gives the last node its name once more.
fn name_again(builder: &mut GameBuilder) -> Result<(), Refusal> {
    if builder.len() == 0 {
        return Err(Refusal::Io);
    }
    match builder.set_name(&[b'n']) {
        Err(Refusal::Memory) if builder.len() != 0 => builder.set_name(&[b'n']),
        given => given,
    }
}
