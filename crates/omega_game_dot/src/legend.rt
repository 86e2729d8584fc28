//! The legend of a drawing: its shapes, its colours and its bold edges.

ghost use Rattle.std.specs.Prelude.{◌≡◌, ◌++◌, IsOkUnless, OnOk};
ghost use Rattle.omega_game_dot.specs.Legend.{choice_label, choice_sample, legend_text, owner_field};
ghost use Rattle.omega_game_dot.specs.Legend.{owner_label, samples_if, solution_samples, walk_samples};
ghost use Rattle.omega_game_dot.specs.Legend.{winner_field, winner_label};

use crate::nodes::{write_edge_end, write_fill, write_shape};
use crate::role::Role;
use omega_game_values::{Player, Refusal};
use omega_text::write_number;

/// Appends the legend of a drawing with a solution or not, and with a lasso or not.
pub(crate) fn write_legend(solved: bool, walked: bool, out: &mut Vec<u8>) -> Result<(), Refusal>
    ensures ok { OnOk result (out.new.items ≡ out.old.items ++ legend_text solved walked) }
    ensures memory { IsOkUnless result Refusal.Memory }
{
    out.extend_from_slice(b"  subgraph cluster_legend {\n    label=\"legend\";\n")?;
    write_owner(Player::Zero, out)?;
    write_owner(Player::One, out)?;
    out.extend_from_slice(b"    owner0 -> owner1 [style=invis];\n")?;
    write_solution_if(solved, out)?;
    write_walk_if(walked, out)?;
    out.extend_from_slice(b"  }\n")?;
    Ok(())
}

/// Appends a node of `player`, which says whose it is.
fn write_owner(player: Player, out: &mut Vec<u8>) -> Result<(), Refusal>
    ensures ok { OnOk result (out.new.items ≡ out.old.items ++ owner_field player) }
    ensures memory { IsOkUnless result Refusal.Memory }
{
    out.extend_from_slice(b"    owner")?;
    write_number(u128::from(player.number()), out)?;
    write_shape(player, out)?;
    write_owner_label(player, out)?;
    Ok(())
}

/// Appends the label of a node of `player`, and the end of its line.
fn write_owner_label(player: Player, out: &mut Vec<u8>) -> Result<(), Refusal>
    ensures ok { OnOk result (out.new.items ≡ out.old.items ++ owner_label player) }
    ensures memory { IsOkUnless result Refusal.Memory }
{
    out.extend_from_slice(b"player ")?;
    write_number(u128::from(player.number()), out)?;
    out.extend_from_slice(b"\"];\n")?;
    Ok(())
}

/// Appends the samples of a drawing with a solution, if `wanted` is set.
fn write_solution_if(wanted: bool, out: &mut Vec<u8>) -> Result<(), Refusal>
    ensures ok { OnOk result (out.new.items ≡ out.old.items ++ samples_if wanted solution_samples) }
    ensures memory { IsOkUnless result Refusal.Memory }
{
    if wanted { write_solution(out) } else { Ok(()) }
}

/// Appends the winners, one below the other, and a choice.
fn write_solution(out: &mut Vec<u8>) -> Result<(), Refusal>
    ensures ok { OnOk result (out.new.items ≡ out.old.items ++ solution_samples) }
    ensures memory { IsOkUnless result Refusal.Memory }
{
    write_winner(Player::Zero, out)?;
    write_winner(Player::One, out)?;
    out.extend_from_slice(b"    legend0 -> legend1 [style=invis];\n")?;
    write_choice(out)
}

/// Appends the field of the nodes that `player` wins.
fn write_winner(player: Player, out: &mut Vec<u8>) -> Result<(), Refusal>
    ensures ok { OnOk result (out.new.items ≡ out.old.items ++ winner_field player) }
    ensures memory { IsOkUnless result Refusal.Memory }
{
    out.extend_from_slice(b"    legend")?;
    write_number(u128::from(player.number()), out)?;
    write_winner_label(player, out)?;
    write_fill(Some(player), out)?;
    out.extend_from_slice(b"];\n")?;
    Ok(())
}

/// Appends the words that `player` wins.
fn write_winner_label(player: Player, out: &mut Vec<u8>) -> Result<(), Refusal>
    ensures ok { OnOk result (out.new.items ≡ out.old.items ++ winner_label player) }
    ensures memory { IsOkUnless result Refusal.Memory }
{
    out.extend_from_slice(b" [shape=plaintext, label=\"player ")?;
    write_number(u128::from(player.number()), out)?;
    out.extend_from_slice(b" wins")?;
    Ok(())
}

/// Appends a sample of an edge to a choice.
fn write_choice(out: &mut Vec<u8>) -> Result<(), Refusal>
    ensures ok { OnOk result (out.new.items ≡ out.old.items ++ choice_sample) }
    ensures memory { IsOkUnless result Refusal.Memory }
{
    write_choice_label(out)?;
    out.extend_from_slice(b"    choosing [shape=point];\n")?;
    out.extend_from_slice(b"    choosing -> chosen")?;
    write_edge_end(true, Role::Plain, out)
}

/// Appends the end of the sample.
fn write_choice_label(out: &mut Vec<u8>) -> Result<(), Refusal>
    ensures ok { OnOk result (out.new.items ≡ out.old.items ++ choice_label) }
    ensures memory { IsOkUnless result Refusal.Memory }
{
    out.extend_from_slice(b"    chosen [shape=plaintext, label=\"the winner's choice\"];\n")?;
    Ok(())
}

/// Appends the samples of a drawing with a lasso, if `wanted` is set.
fn write_walk_if(wanted: bool, out: &mut Vec<u8>) -> Result<(), Refusal>
    ensures ok { OnOk result (out.new.items ≡ out.old.items ++ samples_if wanted walk_samples) }
    ensures memory { IsOkUnless result Refusal.Memory }
{
    if wanted { write_walk(out) } else { Ok(()) }
}

/// Appends a sample of an edge of the stem and one of the cycle.
fn write_walk(out: &mut Vec<u8>) -> Result<(), Refusal>
    ensures ok { OnOk result (out.new.items ≡ out.old.items ++ walk_samples) }
    ensures memory { IsOkUnless result Refusal.Memory }
{
    out.extend_from_slice(b"    stem [shape=plaintext, label=\"the stem\"];\n")?;
    out.extend_from_slice(b"    stemming [shape=point];\n    stemming -> stem")?;
    write_edge_end(false, Role::Stem, out)?;
    out.extend_from_slice(b"    cycle [shape=plaintext, label=\"the cycle\"];\n")?;
    out.extend_from_slice(b"    cycling [shape=point];\n    cycling -> cycle")?;
    write_edge_end(false, Role::Cycle, out)
}
