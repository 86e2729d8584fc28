ghost use Rattle.std.specs.Prelude.{◌≡◌, ◌++◌, ◌<◌, ◌≤◌, IfErr, IfOk, IsOkUnless, OnOk, length};
ghost use Rattle.omega_pg.specs.game.Refusing.{IsReadRefusal};
ghost use Rattle.omega_answers_game.specs.ShowJson.{IsGameObject, IsShowJsonAnswer, bounds_member};
ghost use Rattle.omega_answers_game.specs.ShowJson.{components_members, game_object, has_self_loop};
ghost use Rattle.omega_answers_game.specs.ShowJson.{pair_text, pairs_after, pairs_text, player_bound};
ghost use Rattle.omega_answers_game.specs.ShowJson.{priorities_member, self_loop_count, size_members};

use crate::dropping::drop_game;
use crate::numbered::append_numbered;
use crate::{Components, count_components};
use omega_game::{ForwardGame, Player, PriorityCount, Refusal};
use omega_lift_bound::bound;
use omega_pg::read_forward_game;
use omega_text::write_number;
use std::alloc::Global;

/// Returns a JSON object on one line for the game of `text`. Its members are `nodes`, `edges`, `greatest` (the greatest
/// identifier), `priorities` (a pair for each priority in use, the greatest first, with the number of nodes that have
/// it), `self_loops` (the number of nodes that are among their successors), `components` (the number of strongly
/// connected components), `largest` (the number of nodes of the largest one) and `bounds`. The last has for player 0
/// and player 1 the bound on lifts, or null if it is 2^128 or more. Fails with the [Refusal::Text] or [Refusal::Game]
/// of the text.
pub fn show_json(alloc: Global, text: &[u8]) -> Result<Vec<u8>, Refusal>
    ensures answer { IfOk result (λ output. IsShowJsonAnswer text.now output.items) }
    ensures refused { IfErr result (IsReadRefusal text.now) }
{
    let game = read_forward_game(alloc, text)?;
    let object = object_of(alloc, &game);
    drop_game(game);
    object
}

/// Returns the object of `game`.
fn object_of(alloc: Global, game: &ForwardGame) -> Result<Vec<u8>, Refusal>
    ensures object { IfOk result (λ output. IsGameObject game.now output.items) }
    ensures memory { IsOkUnless result Refusal.Memory }
{
    let components = count_components(alloc, game)?;
    let mut out = Vec::new(alloc);
    append_object(game, components, &mut out)?;
    Ok(out)
}

/// Appends the object of `game`, which has these `components`.
fn append_object(
    game: &ForwardGame,
    components: Components,
    out: &mut Vec<u8>,
) -> Result<(), Refusal>
    ensures text { OnOk result
        (out.new.items ≡ out.old.items ++ game_object game.now components.count components.largest) }
    ensures memory { IsOkUnless result Refusal.Memory }
{
    append_size(game, out)?;
    append_priorities(game.priority_counts(), out)?;
    append_numbered(b",\"self_loops\":", self_loops(game) as u128, out)?;
    append_components(components, out)?;
    append_bounds(game, out)?;
    out.extend_from_slice(b"}\n")?;
    Ok(())
}

/// Appends the members `nodes`, `edges` and `greatest`.
fn append_size(game: &ForwardGame, out: &mut Vec<u8>) -> Result<(), Refusal>
    ensures text { OnOk result (out.new.items ≡ out.old.items ++ size_members game.now) }
    ensures memory { IsOkUnless result Refusal.Memory }
{
    let nodes = game.len();
    let greatest = game.id((nodes - 1) as u32);
    append_numbered(b"{\"nodes\":", nodes as u128, out)?;
    append_numbered(b",\"edges\":", game.edges() as u128, out)?;
    append_numbered(b",\"greatest\":", greatest as u128, out)?;
    Ok(())
}

/// Appends the member `priorities`.
fn append_priorities(counts: &[PriorityCount], out: &mut Vec<u8>) -> Result<(), Refusal>
    ensures text { OnOk result (out.new.items ≡ out.old.items ++ priorities_member counts.now) }
    ensures memory { IsOkUnless result Refusal.Memory }
{
    out.extend_from_slice(b",\"priorities\":[")?;
    append_pairs(counts, out)?;
    out.extend_from_slice(b"]")?;
    Ok(())
}

/// Appends the pairs of `counts`, with a comma between each two.
fn append_pairs(counts: &[PriorityCount], out: &mut Vec<u8>) -> Result<(), Refusal>
    ensures text { OnOk result (out.new.items ≡ out.old.items ++ pairs_text counts.now) }
    ensures memory { IsOkUnless result Refusal.Memory }
{
    if let [first, others @ ..] = counts {
        append_pair(*first, out)?;
        append_pairs_after(others, out)?;
    }
    Ok(())
}

/// Appends the pairs of `counts`, with a comma before each.
fn append_pairs_after(counts: &[PriorityCount], out: &mut Vec<u8>) -> Result<(), Refusal>
    ensures text { OnOk result (out.new.items ≡ out.old.items ++ pairs_after counts.now) }
    ensures memory { IsOkUnless result Refusal.Memory }
{
    for count in counts {
        out.extend_from_slice(b",")?;
        append_pair(*count, out)?;
    }
    Ok(())
}

/// Appends the pair of `count`.
fn append_pair(count: PriorityCount, out: &mut Vec<u8>) -> Result<(), Refusal>
    ensures text { OnOk result (out.new.items ≡ out.old.items ++ pair_text count) }
    ensures memory { IsOkUnless result Refusal.Memory }
{
    append_numbered(b"[", u128::from(count.priority), out)?;
    append_numbered(b",", u128::from(count.nodes), out)?;
    out.extend_from_slice(b"]")?;
    Ok(())
}

/// Returns the number of nodes that are among their successors.
fn self_loops(game: &ForwardGame) -> usize
    ensures { result ≡ self_loop_count game.now }
{
    let nodes = game.len();
    let mut count = 0;
    for place in 0..nodes as u32 {
        if is_self_loop(game, place) {
            count += 1;
        }
    }
    count
}

/// Whether the node at `place` is among its successors.
fn is_self_loop(game: &ForwardGame, place: u32) -> bool
    requires { place < length game.now }
    ensures { result ≡ has_self_loop game.now place }
{
    game.successors(place).contains(&place)
}

/// Appends the members `components` and `largest`.
fn append_components(components: Components, out: &mut Vec<u8>) -> Result<(), Refusal>
    ensures text { OnOk result
        (out.new.items ≡ out.old.items ++ components_members components.count components.largest) }
    ensures memory { IsOkUnless result Refusal.Memory }
{
    append_numbered(b",\"components\":", components.count as u128, out)?;
    append_numbered(b",\"largest\":", components.largest as u128, out)?;
    Ok(())
}

/// Appends the member `bounds`.
fn append_bounds(game: &ForwardGame, out: &mut Vec<u8>) -> Result<(), Refusal>
    ensures text { OnOk result (out.new.items ≡ out.old.items ++ bounds_member game.now) }
    ensures memory { IsOkUnless result Refusal.Memory }
{
    out.extend_from_slice(b",\"bounds\":[")?;
    append_bound(game, Player::Zero, out)?;
    out.extend_from_slice(b",")?;
    append_bound(game, Player::One, out)?;
    out.extend_from_slice(b"]")?;
    Ok(())
}

/// Appends the bound on lifts of `player`, or null if it takes more than 128 bits.
fn append_bound(game: &ForwardGame, player: Player, out: &mut Vec<u8>) -> Result<(), Refusal>
    ensures text { OnOk result (out.new.items ≡ out.old.items ++ player_bound player game.now) }
    ensures memory { IsOkUnless result Refusal.Memory }
{
    match bound(game, player) {
        Some(lifts) => write_number(lifts, out),
        None => Ok(out.extend_from_slice(b"null")?),
    }
}
