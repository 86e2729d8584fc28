//! Arrows that edges of a state share.

ghost use Rattle.std.specs.Prelude.{◌≡◌, ◌++◌, Some, IsOkUnless, OnOk};
ghost use Rattle.omega_hoa_dot.specs.Arrows.{shared_lines, shared_text};
ghost use Rattle.omega_hoa_dot.specs.private.layout.Drawing.{HaveRoles, drawn_all};
ghost use Rattle.omega_hoa_dot.specs.private.layout.Sharing.{IsSharing, next_to, targets_of};

use crate::arrows::write_tail;
use crate::edge_lines::write_lines;
use crate::sharing::ArrowSharing;
use crate::state_edges::StateEdges;
use omega_text::{Refusal, write_number};

/// Appends the arrow to `target` that edges share, if the edge of this `index` is the first of them.
pub(crate) fn write_shared_arrow(
    edges: &StateEdges<'_>,
    sharing: &ArrowSharing,
    index: usize,
    target: u32,
    out: &mut Vec<u8>,
) -> Result<(), Refusal>
    requires roles { HaveRoles edges.now }
    requires sharing { IsSharing (targets_of (drawn_all edges.now)) sharing.now }
    ensures ok { OnOk result (out.new.items ≡ out.old.items
        ++ shared_text edges.now.state.now.number (drawn_all edges.now) index target) }
    ensures memory { IsOkUnless result Refusal.Memory }
{
    if !sharing.is_first(index, target) {
        return Ok(());
    }
    write_tail(edges.state.number, out)?;
    write_number(u128::from(target), out)?;
    out.extend_from_slice(b" [label=\"")?;
    write_shared_lines(edges, sharing, index, target, out)?;
    out.extend_from_slice(b"\"];\n")?;
    Ok(())
}

/// Appends the lines of the edges that share an arrow to `_target`, from the first one, at `index`, to the last.
fn write_shared_lines(
    edges: &StateEdges<'_>,
    sharing: &ArrowSharing,
    index: usize,
    _target: u32,
    out: &mut Vec<u8>,
) -> Result<(), Refusal>
    requires roles { HaveRoles edges.now }
    requires sharing { IsSharing (targets_of (drawn_all edges.now)) sharing.now }
    requires first { next_to (targets_of (drawn_all edges.now)) 0 _target ≡ Some index }
    ensures ok { OnOk result
        (out.new.items ≡ out.old.items ++ shared_lines _target (drawn_all edges.now)) }
    ensures memory { IsOkUnless result Refusal.Memory }
{
    let mut at = Some(index);
    while let Some(index) = at {
        let edge = edges.edge(index);
        write_lines(edges, index, &edge, out)?;
        at = sharing.next(index);
    }
    Ok(())
}
