//! Nodes of a game and their edges.

ghost use Rattle.std.specs.Prelude.{◌≡◌, ◌<◌, ◌++◌, All, IsOkUnless, OnOk, codes, decimal, length};
ghost use Rattle.omega_game_values.specs.Game.{node_at};
ghost use Rattle.omega_game_dot.specs.Nodes.{colour_of, drawn_node, dots, edge_beyond, edge_end, edge_to};
ghost use Rattle.omega_game_dot.specs.Nodes.{edge_to_dots, drawn_edges, fill_part, is_chosen, leads_on};
ghost use Rattle.omega_game_dot.specs.Nodes.{node_label, node_text, node_text_if_drawn, outline_part};
ghost use Rattle.omega_game_dot.specs.Nodes.{plain_end, shape_of, shape_part, successor_line};
ghost use Rattle.omega_game_dot.specs.private.Looks.{marked_look};
ghost use Rattle.omega_game_dot.specs.private.Marking.{marked_edge};

use crate::marks::LassoMarks;
use crate::role::Role;
use omega_game_values::{ForwardGame, Player, Refusal};
use omega_text::{write_name_line, write_number};

/// Appends the lines of the node at `place` and of its edges, with its `winner` and its owner's `choice` if they are
/// known, and with the `marks` of a lasso. Nothing is appended if the node is not drawn.
pub(crate) fn write_place(
    game: &ForwardGame,
    drawn: &[bool],
    place: u32,
    winner: Option<Player>,
    choice: Option<u32>,
    marks: &LassoMarks,
    out: &mut Vec<u8>,
) -> Result<(), Refusal>
    requires place { place < length game.now }
    requires entries { length drawn.now ≡ length game.now }
    ensures ok { OnOk result (out.new.items ≡ out.old.items ++ node_text_if_drawn game.now drawn.now
        (marked_look winner choice marks.now place) place (node_at game.now place)) }
    ensures memory { IsOkUnless result Refusal.Memory }
{
    if !drawn[place as usize] {
        return Ok(());
    }
    write_line(game, place, winner, marks.node_role(place), out)?;
    write_edges(game, drawn, place, choice, marks, out)?;
    write_edge_beyond(game, drawn, place, out)
}

/// Appends the line of the node at `place`, with its `winner` if that is known, and with its `role` in a lasso.
fn write_line(
    game: &ForwardGame,
    place: u32,
    winner: Option<Player>,
    role: Role,
    out: &mut Vec<u8>,
) -> Result<(), Refusal>
    requires { place < length game.now }
    ensures ok { OnOk result
        (out.new.items ≡ out.old.items ++ drawn_node winner role (node_at game.now place)) }
    ensures memory { IsOkUnless result Refusal.Memory }
{
    out.extend_from_slice(b"  ")?;
    write_number(u128::from(game.id(place)), out)?;
    write_shape(game.owner(place), out)?;
    write_label(game, place, out)?;
    write_fill(winner, out)?;
    write_outline(role, out)?;
    out.extend_from_slice(b"];\n")?;
    Ok(())
}

/// Appends the shape of the nodes of `owner`, and the beginning of their label.
pub(crate) fn write_shape(owner: Player, out: &mut Vec<u8>) -> Result<(), Refusal>
    ensures ok { OnOk result (out.new.items ≡ out.old.items ++ shape_part owner) }
    ensures memory { IsOkUnless result Refusal.Memory }
{
    out.extend_from_slice(b" [shape=")?;
    match owner {
        Player::Zero => out.extend_from_slice(b"diamond")?,
        Player::One => out.extend_from_slice(b"box")?,
    }
    out.extend_from_slice(b", label=\"")?;
    Ok(())
}

/// Appends the label of the node at `place`.
fn write_label(game: &ForwardGame, place: u32, out: &mut Vec<u8>) -> Result<(), Refusal>
    requires { place < length game.now }
    ensures ok { OnOk result (out.new.items ≡ out.old.items ++ node_label (node_at game.now place)) }
    ensures memory { IsOkUnless result Refusal.Memory }
{
    write_number(u128::from(game.id(place)), out)?;
    out.extend_from_slice(b"\\n")?;
    write_name_line(game.name(place), out)?;
    out.extend_from_slice(b"priority ")?;
    write_number(u128::from(game.priority(place)), out)?;
    out.extend_from_slice(b"\\n")?;
    Ok(())
}

/// Appends the end of a node's label, and the colour of its `winner` if that is known.
pub(crate) fn write_fill(winner: Option<Player>, out: &mut Vec<u8>) -> Result<(), Refusal>
    ensures ok { OnOk result (out.new.items ≡ out.old.items ++ (codes "\"" ++ fill_part winner)) }
    ensures memory { IsOkUnless result Refusal.Memory }
{
    out.push(b'"')?;
    if let Some(winner) = winner {
        out.extend_from_slice(b", style=filled, fillcolor=")?;
        write_colour(winner, out)?;
    }
    Ok(())
}

/// Appends the outline of a node, if it is on a lasso.
fn write_outline(role: Role, out: &mut Vec<u8>) -> Result<(), Refusal>
    ensures ok { OnOk result (out.new.items ≡ out.old.items ++ outline_part role) }
    ensures memory { IsOkUnless result Refusal.Memory }
{
    match role {
        Role::Plain => Ok(()),
        Role::Stem => Ok(out.extend_from_slice(b", color=blue, penwidth=2")?),
        Role::Cycle => Ok(out.extend_from_slice(b", color=red, penwidth=2")?),
    }
}

/// Appends the colour of the nodes that `winner` wins.
fn write_colour(winner: Player, out: &mut Vec<u8>) -> Result<(), Refusal>
    ensures ok { OnOk result (out.new.items ≡ out.old.items ++ colour_of winner) }
    ensures memory { IsOkUnless result Refusal.Memory }
{
    match winner {
        Player::Zero => out.extend_from_slice(b"lightblue")?,
        Player::One => out.extend_from_slice(b"orange")?,
    }
    Ok(())
}

/// Appends the edges from the node at `place` to nodes that are drawn.
fn write_edges(
    game: &ForwardGame,
    drawn: &[bool],
    place: u32,
    choice: Option<u32>,
    marks: &LassoMarks,
    out: &mut Vec<u8>,
) -> Result<(), Refusal>
    requires place { place < length game.now }
    requires entries { length drawn.now ≡ length game.now }
    ensures ok { OnOk result (out.new.items ≡ out.old.items ++ drawn_edges game.now drawn.now choice
        (marked_edge marks.now place) (node_at game.now place)) }
    ensures memory { IsOkUnless result Refusal.Memory }
{
    game.keeps_limits();
    for successor in game.successors(place) {
        write_edge_to(game, drawn, place, choice, marks, *successor, out)?;
    }
    Ok(())
}

/// Appends the edge from the node at `place` to `successor`, if the node there is drawn.
fn write_edge_to(
    game: &ForwardGame,
    drawn: &[bool],
    place: u32,
    choice: Option<u32>,
    marks: &LassoMarks,
    successor: u32,
    out: &mut Vec<u8>,
) -> Result<(), Refusal>
    requires place { place < length game.now }
    requires successor { successor < length game.now }
    requires entries { length drawn.now ≡ length game.now }
    ensures ok { OnOk result (out.new.items ≡ out.old.items ++ edge_to game.now drawn.now choice
        (marked_edge marks.now place) (node_at game.now place) successor) }
    ensures memory { IsOkUnless result Refusal.Memory }
{
    if drawn[successor as usize] {
        write_edge(game, place, choice, marks, successor, out)
    } else {
        Ok(())
    }
}

/// Appends the edge from the node at `place` to `successor`, bold if that is the `choice` or if it is on a lasso.
fn write_edge(
    game: &ForwardGame,
    place: u32,
    choice: Option<u32>,
    marks: &LassoMarks,
    successor: u32,
    out: &mut Vec<u8>,
) -> Result<(), Refusal>
    requires place { place < length game.now }
    requires successor { successor < length game.now }
    ensures ok { OnOk result (out.new.items ≡ out.old.items ++ successor_line game.now choice
        (marked_edge marks.now place) (node_at game.now place) successor) }
    ensures memory { IsOkUnless result Refusal.Memory }
{
    out.extend_from_slice(b"  ")?;
    write_number(u128::from(game.id(place)), out)?;
    out.extend_from_slice(b" -> ")?;
    write_number(u128::from(game.id(successor)), out)?;
    write_edge_end(
        is_chosen(choice, successor),
        marks.edge_role(place, successor),
        out,
    )
}

/// Appends the end of an edge's line: bold if it is chosen or on a lasso, red on the cycle and blue on the stem.
pub(crate) fn write_edge_end(chosen: bool, role: Role, out: &mut Vec<u8>) -> Result<(), Refusal>
    ensures ok { OnOk result (out.new.items ≡ out.old.items ++ edge_end chosen role) }
    ensures memory { IsOkUnless result Refusal.Memory }
{
    match role {
        Role::Plain => write_plain_end(chosen, out),
        Role::Stem => Ok(out.extend_from_slice(b" [style=bold, color=blue];\n")?),
        Role::Cycle => Ok(out.extend_from_slice(b" [style=bold, color=red];\n")?),
    }
}

/// Appends the end of the line of an edge that is on no lasso, bold if it is chosen.
fn write_plain_end(chosen: bool, out: &mut Vec<u8>) -> Result<(), Refusal>
    ensures ok { OnOk result (out.new.items ≡ out.old.items ++ plain_end chosen) }
    ensures memory { IsOkUnless result Refusal.Memory }
{
    if chosen {
        out.extend_from_slice(b" [style=bold];\n")?;
    } else {
        out.extend_from_slice(b";\n")?;
    }
    Ok(())
}

/// Whether there is a `choice`, and it is `place`.
fn is_chosen(choice: Option<u32>, place: u32) -> bool
    ensures { result ≡ is_chosen choice place }
{
    match choice {
        Some(choice) => choice == place,
        None => false,
    }
}

/// Appends an edge to `...` if the node at `place` leads on to a node that is not drawn.
fn write_edge_beyond(
    game: &ForwardGame,
    drawn: &[bool],
    place: u32,
    out: &mut Vec<u8>,
) -> Result<(), Refusal>
    requires place { place < length game.now }
    requires entries { length drawn.now ≡ length game.now }
    ensures ok { OnOk result
        (out.new.items ≡ out.old.items ++ edge_beyond drawn.now (node_at game.now place)) }
    ensures memory { IsOkUnless result Refusal.Memory }
{
    if leads_on(game, drawn, place) {
        write_dots(game, place, out)?;
        write_edge_to_dots(game, place, out)
    } else {
        Ok(())
    }
}

/// Whether an edge leads from the node at `place` to a node that is not drawn.
fn leads_on(game: &ForwardGame, drawn: &[bool], place: u32) -> bool
    requires place { place < length game.now }
    requires entries { length drawn.now ≡ length game.now }
    ensures { result ≡ leads_on drawn.now (node_at game.now place) }
{
    game.keeps_limits();
    for successor in game.successors(place) {
        if !drawn[*successor as usize] {
            return true;
        }
    }
    false
}

/// Appends `...` after the node at `place`.
fn write_dots(game: &ForwardGame, place: u32, out: &mut Vec<u8>) -> Result<(), Refusal>
    requires { place < length game.now }
    ensures ok { OnOk result (out.new.items ≡ out.old.items ++ dots (node_at game.now place)) }
    ensures memory { IsOkUnless result Refusal.Memory }
{
    out.extend_from_slice(b"  more")?;
    write_number(u128::from(game.id(place)), out)?;
    out.extend_from_slice(b" [shape=plaintext, label=\"...\"];\n")?;
    Ok(())
}

/// Appends the edge from the node at `place` to `...`.
fn write_edge_to_dots(game: &ForwardGame, place: u32, out: &mut Vec<u8>) -> Result<(), Refusal>
    requires { place < length game.now }
    ensures ok { OnOk result (out.new.items ≡ out.old.items ++ edge_to_dots (node_at game.now place)) }
    ensures memory { IsOkUnless result Refusal.Memory }
{
    out.extend_from_slice(b"  ")?;
    write_number(u128::from(game.id(place)), out)?;
    out.extend_from_slice(b" -> more")?;
    write_number(u128::from(game.id(place)), out)?;
    out.extend_from_slice(b";\n")?;
    Ok(())
}
