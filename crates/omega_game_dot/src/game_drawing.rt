//! Drawings of games.

ghost use Rattle.std.specs.Prelude.{◌≡◌, ◌<◌, ◌≤◌, ◌++◌, false, true, IfOk, IsOkUnless, OnOk, codes, length};
ghost use Rattle.omega_text.specs.Numbered.{numbered};
ghost use Rattle.omega_game_values.specs.Game.{node_at};
ghost use Rattle.omega_game_values.specs.Solution.{IsSolution};
ghost use Rattle.omega_game_dot.specs.Extent.{IsPlaced};
ghost use Rattle.omega_game_dot.specs.GameDrawing.{IsDrawing, IsGameDrawing, IsSolutionDrawing};
ghost use Rattle.omega_game_dot.specs.GameDrawing.{IsSolutionWalkDrawing, IsWalkDrawing};
ghost use Rattle.omega_game_dot.specs.GameDrawing.{game_drawing, legend_part, solved_look};
ghost use Rattle.omega_game_dot.specs.Nodes.{node_text_if_drawn};
ghost use Rattle.omega_game_dot.specs.private.Looks.{look_in, unsolved_look};

use crate::extent::{Extent, drawn_places};
use crate::legend::write_legend;
use crate::marks::{LassoMarks, marks_of};
use crate::nodes::write_place;
use omega_game_values::{ForwardGame, Refusal, Solution};
use std::alloc::Global;

/// Draws a game, or a part of it, as a graph in DOT.
///
/// Nodes of player 0 are diamonds, and those of player 1 are boxes, each with its identifier, name and priority. Each
/// listed successor that is drawn has an edge. If a node leads on to one that is not drawn, an edge leads to `...`.
///
/// The text is in the DOT language (graphviz.org/doc/info/lang.html). The cost is linear in it, and in the game's
/// nodes.
pub fn draw_game(alloc: Global, game: &ForwardGame, extent: Extent) -> Result<Vec<u8>, Refusal>
    requires { IsPlaced game.now extent }
    ensures drawn { IfOk result (λ text. IsGameDrawing game.now extent text.items) }
    ensures memory { IsOkUnless result Refusal.Memory }
{
    draw_walk(alloc, game, extent, &[], &[], false)
}

/// Draws a game, or a part of it, with a `solution` of the game.
///
/// Nodes and edges are drawn as without it. Each node is filled in its winner's colour, light blue for player 0 and
/// orange for player 1, and each edge to a choice is bold. If `legend` is set, a legend says so, and whose nodes are
/// diamonds and boxes.
pub fn draw_solution(
    alloc: Global,
    game: &ForwardGame,
    extent: Extent,
    solution: &Solution,
    legend: bool,
) -> Result<Vec<u8>, Refusal>
    requires extent { IsPlaced game.now extent }
    requires solution { IsSolution game.now solution.now }
    ensures drawn { IfOk result
        (λ text. IsSolutionDrawing game.now extent solution.now legend text.items) }
    ensures memory { IsOkUnless result Refusal.Memory }
{
    draw_solved(alloc, game, extent, solution, &[], &[], legend, false)
}

/// Draws a game, or a part of it, with the lasso whose `stem` and `cycle` are lists of places. The last place of the
/// stem leads to the first of the cycle, and the last of the cycle back to it.
///
/// Nodes and edges are drawn as without it. Those on the cycle are red, the others on the stem are blue, and the edges
/// are bold. If `legend` is set, a legend says so, and whose nodes are diamonds and boxes. Whether listed edges join
/// the places is not judged.
pub fn draw_walk(
    alloc: Global,
    game: &ForwardGame,
    extent: Extent,
    stem: &[u32],
    cycle: &[u32],
    legend: bool,
) -> Result<Vec<u8>, Refusal>
    requires { IsPlaced game.now extent }
    ensures drawn { IfOk result
        (λ text. IsWalkDrawing game.now extent stem.now cycle.now legend text.items) }
    ensures memory { IsOkUnless result Refusal.Memory }
{
    let drawn = drawn_places(alloc, game, extent)?;
    let marks = marks_of(alloc, stem, cycle)?;
    let room = room_for(extent, 32 + 64 * game.len() + 16 * game.edges());
    unsolved_drawing(alloc, game, &drawn, &marks, legend, room)
}

/// Draws a game, or a part of it, with a `solution` of the game as [draw_solution] does, and with a lasso as
/// [draw_walk] does. An edge on the lasso has its colour, also where it is a choice.
pub fn draw_solution_walk(
    alloc: Global,
    game: &ForwardGame,
    extent: Extent,
    solution: &Solution,
    stem: &[u32],
    cycle: &[u32],
    legend: bool,
) -> Result<Vec<u8>, Refusal>
    requires extent { IsPlaced game.now extent }
    requires solution { IsSolution game.now solution.now }
    ensures drawn { IfOk result (λ text.
        IsSolutionWalkDrawing game.now extent solution.now stem.now cycle.now legend text.items) }
    ensures memory { IsOkUnless result Refusal.Memory }
{
    draw_solved(alloc, game, extent, solution, stem, cycle, legend, true)
}

/// Draws a game, or a part of it, with a `solution` and a lasso. If `legend` is set, there is a legend, and if `walked`
/// is set, it tells of the lasso too.
fn draw_solved(
    alloc: Global,
    game: &ForwardGame,
    extent: Extent,
    solution: &Solution,
    stem: &[u32],
    cycle: &[u32],
    legend: bool,
    walked: bool,
) -> Result<Vec<u8>, Refusal>
    requires extent { IsPlaced game.now extent }
    requires solution { IsSolution game.now solution.now }
    ensures drawn { IfOk result
        (λ text. IsDrawing game.now extent (solved_look game.now solution.now stem.now cycle.now)
        (legend_part legend true walked) text.items) }
    ensures memory { IsOkUnless result Refusal.Memory }
{
    let drawn = drawn_places(alloc, game, extent)?;
    let marks = marks_of(alloc, stem, cycle)?;
    let room = room_for(extent, 512 + 96 * game.len() + 16 * game.edges());
    solved_drawing(alloc, game, &drawn, solution, &marks, legend, walked, room)
}

/// Returns the drawing of the nodes that are flagged in `drawn`, with the `marks` of a lasso. The text has room for
/// `room` bytes at first.
fn unsolved_drawing(
    alloc: Global,
    game: &ForwardGame,
    drawn: &[bool],
    marks: &LassoMarks,
    legend: bool,
    room: usize,
) -> Result<Vec<u8>, Refusal>
    requires { length drawn.now ≡ length game.now }
    ensures text { IfOk result (λ text. text.items ≡
        game_drawing game.now drawn.now (unsolved_look marks.now) (legend_part legend false true)) }
    ensures memory { IsOkUnless result Refusal.Memory }
{
    let mut out = begin(alloc, room)?;
    write_nodes(game, drawn, marks, &mut out)?;
    write_legend_part(legend, false, true, &mut out)?;
    out.extend_from_slice(b"}\n")?;
    Ok(out)
}

/// Returns the drawing of the nodes that are flagged in `drawn`, with a `solution` and the `marks` of a lasso. The text
/// has room for `room` bytes at first.
fn solved_drawing(
    alloc: Global,
    game: &ForwardGame,
    drawn: &[bool],
    solution: &Solution,
    marks: &LassoMarks,
    legend: bool,
    walked: bool,
    room: usize,
) -> Result<Vec<u8>, Refusal>
    requires solution { IsSolution game.now solution.now }
    requires entries { length drawn.now ≡ length game.now }
    ensures text { IfOk result (λ text. text.items ≡ game_drawing game.now drawn.now
        (look_in game.now solution.now marks.now) (legend_part legend true walked)) }
    ensures memory { IsOkUnless result Refusal.Memory }
{
    let mut out = begin(alloc, room)?;
    write_solved_nodes(game, drawn, solution, marks, &mut out)?;
    write_legend_part(legend, true, walked, &mut out)?;
    out.extend_from_slice(b"}\n")?;
    Ok(out)
}

/// Returns the beginning of a drawing, with room for `room` bytes.
fn begin(alloc: Global, room: usize) -> Result<Vec<u8>, Refusal>
    ensures begun { IfOk result (λ out. out.items ≡ codes "digraph game {\n") }
    ensures memory { IsOkUnless result Refusal.Memory }
{
    let mut out = Vec::with_capacity(alloc, room)?;
    out.extend_from_slice(b"digraph game {\n")?;
    Ok(out)
}

/// Returns the capacity to begin with, if the whole game needs `whole` bytes: a part may be small.
fn room_for(extent: Extent, whole: usize) -> usize
    ensures { result ≤ whole }
{
    match extent {
        Extent::Whole => whole,
        Extent::Part { .. } => 0,
    }
}

/// Appends the texts of all nodes.
fn write_nodes(
    game: &ForwardGame,
    drawn: &[bool],
    marks: &LassoMarks,
    out: &mut Vec<u8>,
) -> Result<(), Refusal>
    requires { length drawn.now ≡ length game.now }
    ensures ok { OnOk result (out.new.items ≡ out.old.items ++ numbered (λ place node.
        node_text_if_drawn game.now drawn.now (unsolved_look marks.now place) place node) 0 game.now) }
    ensures memory { IsOkUnless result Refusal.Memory }
{
    for place in 0..game.len() as u32 {
        write_place(game, drawn, place, None, None, marks, out)?;
    }
    Ok(())
}

/// Appends the texts of all nodes, each with its winner and its owner's choice by `solution`.
fn write_solved_nodes(
    game: &ForwardGame,
    drawn: &[bool],
    solution: &Solution,
    marks: &LassoMarks,
    out: &mut Vec<u8>,
) -> Result<(), Refusal>
    requires solution { IsSolution game.now solution.now }
    requires entries { length drawn.now ≡ length game.now }
    ensures ok { OnOk result
        (out.new.items ≡ out.old.items ++ numbered (λ place node. node_text_if_drawn game.now
        drawn.now (look_in game.now solution.now marks.now place) place node) 0 game.now) }
    ensures memory { IsOkUnless result Refusal.Memory }
{
    for place in 0..game.len() as u32 {
        write_solved(game, drawn, solution, marks, place, out)?;
    }
    Ok(())
}

/// Appends the text of the node at `place`, with its winner and its owner's choice by `solution`.
fn write_solved(
    game: &ForwardGame,
    drawn: &[bool],
    solution: &Solution,
    marks: &LassoMarks,
    place: u32,
    out: &mut Vec<u8>,
) -> Result<(), Refusal>
    requires solution { IsSolution game.now solution.now }
    requires place { place < length game.now }
    requires entries { length drawn.now ≡ length game.now }
    ensures ok { OnOk result (out.new.items ≡ out.old.items ++ node_text_if_drawn game.now drawn.now
        (look_in game.now solution.now marks.now place) place (node_at game.now place)) }
    ensures memory { IsOkUnless result Refusal.Memory }
{
    let winner = solution.winners.as_slice()[place as usize];
    let choice = solution.choice(game.owner(place), place);
    write_place(game, drawn, place, Some(winner), choice, marks, out)
}

/// Appends the legend of a drawing with a solution or not and with a lasso or not, if `legend` is set.
fn write_legend_part(
    legend: bool,
    solved: bool,
    walked: bool,
    out: &mut Vec<u8>,
) -> Result<(), Refusal>
    ensures ok { OnOk result (out.new.items ≡ out.old.items ++ legend_part legend solved walked) }
    ensures memory { IsOkUnless result Refusal.Memory }
{
    if legend {
        write_legend(solved, walked, out)
    } else {
        Ok(())
    }
}
