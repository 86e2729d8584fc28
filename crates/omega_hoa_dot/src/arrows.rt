//! Arrows, with their labels and their styles.

ghost use Rattle.std.specs.Prelude.{◌≡◌, ◌++◌, IsOkUnless, OnOk, length, slice_index};
ghost use Rattle.omega_hoa_dot.specs.Arrows.{arrow_line, attributes_part, style_part, tail_part};
ghost use Rattle.omega_hoa_dot.specs.private.layout.Drawing.{HaveRoles, IsEdgeOf, drawn_at};

use crate::edge_lines::write_lines;
use crate::role::Role;
use crate::state_edges::StateEdges;
use omega_hoa_automaton::EdgeRef;
use omega_text::{Refusal, write_number};

/// Appends the arrow of `edge`, which leads to one state and shares no arrow.
pub(crate) fn write_arrow(
    edges: &StateEdges<'_>,
    index: usize,
    edge: &EdgeRef<'_>,
    out: &mut Vec<u8>,
) -> Result<(), Refusal>
    requires roles { HaveRoles edges.now }
    requires edge { IsEdgeOf edges.now index edge.now }
    requires single { length edge.now.targets ≡ 1 }
    ensures ok { let drawn = drawn_at edges.now index edge.now in
        OnOk result (out.new.items ≡ out.old.items
        ++ arrow_line drawn.role edges.now.state.now.number (slice_index drawn.targets 0) drawn.lines) }
    ensures memory { IsOkUnless result Refusal.Memory }
{
    write_tail(edges.state.number, out)?;
    write_number(u128::from(edge.targets()[0]), out)?;
    write_attributes(edges, index, edge, out)?;
    out.extend_from_slice(b"];\n")?;
    Ok(())
}

/// Appends the beginning of an arrow that leaves `state`.
pub(crate) fn write_tail(state: u32, out: &mut Vec<u8>) -> Result<(), Refusal>
    ensures ok { OnOk result (out.new.items ≡ out.old.items ++ tail_part state) }
    ensures memory { IsOkUnless result Refusal.Memory }
{
    out.extend_from_slice(b"  ")?;
    write_number(u128::from(state), out)?;
    out.extend_from_slice(b" -> ")?;
    Ok(())
}

/// Appends the label of `edge` and its style.
pub(crate) fn write_attributes(
    edges: &StateEdges<'_>,
    index: usize,
    edge: &EdgeRef<'_>,
    out: &mut Vec<u8>,
) -> Result<(), Refusal>
    requires roles { HaveRoles edges.now }
    requires edge { IsEdgeOf edges.now index edge.now }
    ensures ok { let drawn = drawn_at edges.now index edge.now in OnOk result
        (out.new.items ≡ out.old.items ++ attributes_part drawn.role drawn.lines) }
    ensures memory { IsOkUnless result Refusal.Memory }
{
    out.extend_from_slice(b" [label=\"")?;
    write_lines(edges, index, edge, out)?;
    out.push(b'"')?;
    write_style(edges.role(index), out)
}

/// Appends the style of `role`.
pub(crate) fn write_style(role: Role, out: &mut Vec<u8>) -> Result<(), Refusal>
    ensures ok { OnOk result (out.new.items ≡ out.old.items ++ style_part role) }
    ensures memory { IsOkUnless result Refusal.Memory }
{
    match role {
        Role::Plain => {}
        Role::Stem => out.extend_from_slice(b", style=bold, color=blue")?,
        Role::Cycle => out.extend_from_slice(b", style=bold, color=red")?,
    }
    Ok(())
}
