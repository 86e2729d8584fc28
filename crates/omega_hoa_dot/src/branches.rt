//! Universal branches: edges that lead to several states at once.

ghost use Rattle.std.specs.Prelude.{◌≡◌, ◌++◌, IsOkUnless, OnOk};
ghost use Rattle.std.specs.List.{flat_map};
ghost use Rattle.omega_hoa_dot.specs.Arrows.{branch_arrow, branch_name, branch_point, branch_text};
ghost use Rattle.omega_hoa_dot.specs.private.layout.Drawing.{HaveRoles, IsEdgeOf, drawn_at};

use crate::arrows::{write_attributes, write_style, write_tail};
use crate::role::Role;
use crate::state_edges::StateEdges;
use omega_hoa_automaton::EdgeRef;
use omega_text::{Refusal, write_number};

/// Appends `edge`, which leads to several states at once.
pub(crate) fn write_branch(
    edges: &StateEdges<'_>,
    index: usize,
    edge: &EdgeRef<'_>,
    out: &mut Vec<u8>,
) -> Result<(), Refusal>
    requires roles { HaveRoles edges.now }
    requires edge { IsEdgeOf edges.now index edge.now }
    ensures ok { let drawn = drawn_at edges.now index edge.now in
        OnOk result (out.new.items ≡ out.old.items
        ++ branch_text drawn.role drawn.number edges.now.state.now.number drawn.targets drawn.lines) }
    ensures memory { IsOkUnless result Refusal.Memory }
{
    let number = edges.number(index);
    let role = edges.role(index);
    write_tail(edges.state.number, out)?;
    write_branch_name(number, out)?;
    write_attributes(edges, index, edge, out)?;
    out.extend_from_slice(b", arrowhead=none];\n")?;
    write_branch_point(number, out)?;
    write_branch_arrows(number, role, edge.targets(), out)?;
    Ok(())
}

/// Appends the name of the point of the universal branch with this `number`.
fn write_branch_name(number: usize, out: &mut Vec<u8>) -> Result<(), Refusal>
    ensures ok { OnOk result (out.new.items ≡ out.old.items ++ branch_name number) }
    ensures memory { IsOkUnless result Refusal.Memory }
{
    out.extend_from_slice(b"branch")?;
    write_number(number as u128, out)
}

/// Appends the point of the universal branch with this `number`.
fn write_branch_point(number: usize, out: &mut Vec<u8>) -> Result<(), Refusal>
    ensures ok { OnOk result (out.new.items ≡ out.old.items ++ branch_point number) }
    ensures memory { IsOkUnless result Refusal.Memory }
{
    out.extend_from_slice(b"  ")?;
    write_branch_name(number, out)?;
    out.extend_from_slice(b" [shape=point];\n")?;
    Ok(())
}

/// Appends the arrows from the point of a universal branch to `targets`.
fn write_branch_arrows(
    number: usize,
    role: Role,
    targets: &[u32],
    out: &mut Vec<u8>,
) -> Result<(), Refusal>
    ensures ok { OnOk result
        (out.new.items ≡ out.old.items ++ flat_map (branch_arrow number role) targets.now) }
    ensures memory { IsOkUnless result Refusal.Memory }
{
    for target in targets {
        write_branch_arrow(number, role, *target, out)?;
    }
    Ok(())
}

/// Appends the arrow from the point of a universal branch to `target`.
fn write_branch_arrow(
    number: usize,
    role: Role,
    target: u32,
    out: &mut Vec<u8>,
) -> Result<(), Refusal>
    ensures ok { OnOk result (out.new.items ≡ out.old.items ++ branch_arrow number role target) }
    ensures memory { IsOkUnless result Refusal.Memory }
{
    out.extend_from_slice(b"  ")?;
    write_branch_name(number, out)?;
    out.extend_from_slice(b" -> ")?;
    write_number(u128::from(target), out)?;
    out.extend_from_slice(b" [label=\"\"")?;
    write_style(role, out)?;
    out.extend_from_slice(b"];\n")?;
    Ok(())
}
