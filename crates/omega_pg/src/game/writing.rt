ghost use Rattle.std.specs.Prelude.{◌≡◌, ◌<◌, ◌++◌, All, IfOk, IsOkUnless, OnOk};
ghost use Rattle.std.specs.Prelude.{codes, decimal, length, map, option_map};
ghost use Rattle.omega_game_values.specs.Building.{specified};
ghost use Rattle.omega_game_values.specs.Game.{IsGame, node_at, identifier_at};
ghost use Rattle.omega_pg.specs.game.Canonical.{canonical_game, header_line, name_part};
ghost use Rattle.omega_pg.specs.game.Canonical.{node_line, successors_after, successors_text};
ghost use Rattle.omega_pg.specs.game.Priorities.{with_priorities, with_priority};

use omega_game_values::{ForwardGame, Refusal};
use omega_text::write_number;
use std::alloc::Global;

/// Returns the canonical text of `game`.
///
/// If it has at most `MOST_TEXT` bytes, it is read back to the same game, by `laws::canonical_texts_are_read`. The
/// cost is linear in the text.
pub fn write_game(alloc: Global, game: &ForwardGame) -> Result<Vec<u8>, Refusal>
    ensures text { IfOk result (λ text. text.items ≡ canonical_game game.now) }
    ensures memory { IsOkUnless result Refusal.Memory }
{
    let nodes = game.len();
    let mut out = Vec::with_capacity(alloc, 32 + 16 * nodes + 4 * game.edges())?;
    write_header(game.id(nodes as u32 - 1), &mut out)?;
    for place in 0..nodes as u32 {
        write_node(game, place, &mut out)?;
    }
    Ok(out)
}

/// Returns the canonical text of `game` with these `priorities` by place in place of its own.
///
/// The cost is linear in the text.
pub fn write_game_with_priorities(
    alloc: Global,
    game: &ForwardGame,
    priorities: &[u32],
) -> Result<Vec<u8>, Refusal>
    requires { length priorities.now ≡ length game.now }
    ensures text { IfOk result
        (λ text. text.items ≡ canonical_game (with_priorities game.now priorities.now)) }
    ensures memory { IsOkUnless result Refusal.Memory }
{
    let nodes = game.len();
    let mut out = Vec::with_capacity(alloc, 32 + 16 * nodes + 4 * game.edges())?;
    write_header(game.id(nodes as u32 - 1), &mut out)?;
    for place in 0..nodes as u32 {
        write_node_with(game, place, priorities[place as usize], &mut out)?;
    }
    Ok(out)
}

/// Appends the line of the header with this `number`.
fn write_header(number: u32, out: &mut Vec<u8>) -> Result<(), Refusal>
    ensures ok { OnOk result (out.new.items ≡ out.old.items ++ header_line number) }
    ensures memory { IsOkUnless result Refusal.Memory }
{
    out.extend_from_slice(b"parity ")?;
    write_number(u128::from(number), out)?;
    out.extend_from_slice(b";\n")?;
    Ok(())
}

/// Appends the line of the node at `place`.
fn write_node(game: &ForwardGame, place: u32, out: &mut Vec<u8>) -> Result<(), Refusal>
    requires game { IsGame game.now }
    requires place { place < length game.now }
    ensures ok { OnOk result
        (out.new.items ≡ out.old.items ++ node_line (specified game.now (node_at game.now place))) }
    ensures memory { IsOkUnless result Refusal.Memory }
{
    write_node_with(game, place, game.priority(place), out)
}

/// Appends the line of the node at `place`, with this `priority` in place of its own.
fn write_node_with(
    game: &ForwardGame,
    place: u32,
    priority: u32,
    out: &mut Vec<u8>,
) -> Result<(), Refusal>
    requires game { IsGame game.now }
    requires place { place < length game.now }
    ensures ok { OnOk result (out.new.items ≡ out.old.items
        ++ node_line (with_priority priority (specified game.now (node_at game.now place)))) }
    ensures memory { IsOkUnless result Refusal.Memory }
{
    write_part(game.id(place), out)?;
    write_part(priority, out)?;
    write_part(game.owner(place).number(), out)?;
    write_listed(game, game.successors(place), out)?;
    write_name(game.name(place), out)?;
    out.extend_from_slice(b";\n")?;
    Ok(())
}

/// Appends `number` and a space.
pub(crate) fn write_part(number: u32, out: &mut Vec<u8>) -> Result<(), Refusal>
    ensures ok { OnOk result (out.new.items ≡ out.old.items ++ (decimal number ++ codes " ")) }
    ensures memory { IsOkUnless result Refusal.Memory }
{
    write_number(u128::from(number), out)?;
    out.push(b' ')?;
    Ok(())
}

/// Appends the identifiers of the nodes at `places`, with a comma between each two.
fn write_listed(game: &ForwardGame, places: &[u32], out: &mut Vec<u8>) -> Result<(), Refusal>
    requires { All (λ place. place < length game.now) places.now }
    ensures ok { OnOk result
        (out.new.items ≡ out.old.items ++ successors_text (map (identifier_at game.now) places.now)) }
    ensures memory { IsOkUnless result Refusal.Memory }
{
    if let [first, others @ ..] = places {
        write_number(u128::from(game.id(*first)), out)?;
        write_others(game, others, out)?;
    }
    Ok(())
}

/// Appends the identifiers of the nodes at `places`, with a comma before each.
fn write_others(game: &ForwardGame, places: &[u32], out: &mut Vec<u8>) -> Result<(), Refusal>
    requires { All (λ place. place < length game.now) places.now }
    ensures ok { OnOk result
        (out.new.items ≡ out.old.items ++ successors_after (map (identifier_at game.now) places.now)) }
    ensures memory { IsOkUnless result Refusal.Memory }
{
    for place in places {
        out.push(b',')?;
        write_number(u128::from(game.id(*place)), out)?;
    }
    Ok(())
}

/// Appends a space and `name` between quotes, if there is one.
fn write_name(name: Option<&[u8]>, out: &mut Vec<u8>) -> Result<(), Refusal>
    ensures ok { OnOk result
        (out.new.items ≡ out.old.items ++ name_part (option_map (λ name. name.now) name.entry)) }
    ensures memory { IsOkUnless result Refusal.Memory }
{
    if let Some(name) = name {
        out.extend_from_slice(b" \"")?;
        out.extend_from_slice(name)?;
        out.push(b'"')?;
    }
    Ok(())
}
