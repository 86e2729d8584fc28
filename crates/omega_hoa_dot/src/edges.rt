//! The edges of an automaton.

ghost use Rattle.std.specs.Prelude.{◌≡◌, ◌^◌, ◌<◌, ◌++◌, IsOkUnless, OnOk, length};
ghost use Rattle.omega_hoa_automaton.specs.Automaton.{edge_count};
ghost use Rattle.omega_hoa_dot.specs.Arrows.{edge_text, edges_text, own_text, state_edges_text};
ghost use Rattle.omega_hoa_dot.specs.private.layout.Drawing.{HaveRoles, IsEdgeOf, drawn_all, drawn_at};
ghost use Rattle.omega_hoa_dot.specs.private.layout.Marking.{role_at};
ghost use Rattle.omega_hoa_dot.specs.private.layout.Sharing.{IsSharing, targets_of};

use crate::arrows::write_arrow;
use crate::branches::write_branch;
use crate::role::Role;
use crate::shared_arrows::write_shared_arrow;
use crate::sharing::{ArrowSharing, sharing_of};
use crate::state_edges::StateEdges;
use omega_hoa_automaton::{Automaton, EdgeRef};
use omega_text::Refusal;

/// Appends all edges of `automaton`, each with its role.
pub(crate) fn write_edges(
    automaton: &Automaton,
    roles: &[Role],
    out: &mut Vec<u8>,
) -> Result<(), Refusal>
    requires entries { length roles.now ≡ edge_count automaton.now }
    requires counted { edge_count automaton.now < 2 ^ 32 }
    ensures ok { OnOk result (out.new.items ≡ out.old.items
        ++ edges_text automaton.now.propositions (role_at roles.now) 0 automaton.now.defined) }
    ensures memory { IsOkUnless result Refusal.Memory }
{
    automaton.keeps_limits();
    let mut first: usize = 0;
    for state in automaton.defined() {
        let edges = StateEdges {
            automaton,
            roles,
            state,
            first,
        };
        write_edges_of(&edges, out)?;
        first += state.edges.len();
    }
    Ok(())
}

/// Appends `edges`, those of a state.
fn write_edges_of(edges: &StateEdges<'_>, out: &mut Vec<u8>) -> Result<(), Refusal>
    requires { HaveRoles edges.now }
    ensures ok { OnOk result (out.new.items ≡ out.old.items
        ++ state_edges_text edges.now.automaton.now.propositions (role_at edges.now.roles.now)
        edges.now.first edges.now.state.now) }
    ensures memory { IsOkUnless result Refusal.Memory }
{
    let alloc = *out.allocator();
    let targets = edges.targets(alloc)?;
    let sharing = sharing_of(alloc, targets.as_slice())?;
    for index in 0..edges.len() {
        let edge = edges.edge(index);
        write_edge(edges, &sharing, index, &edge, out)?;
    }
    Ok(())
}

/// Appends `edge`. If it shares an arrow, that is appended for the first edge that does.
fn write_edge(
    edges: &StateEdges<'_>,
    sharing: &ArrowSharing,
    index: usize,
    edge: &EdgeRef<'_>,
    out: &mut Vec<u8>,
) -> Result<(), Refusal>
    requires roles { HaveRoles edges.now }
    requires sharing { IsSharing (targets_of (drawn_all edges.now)) sharing.now }
    requires edge { IsEdgeOf edges.now index edge.now }
    ensures ok { OnOk result (out.new.items ≡ out.old.items ++ edge_text edges.now.state.now.number
        (drawn_all edges.now) index (drawn_at edges.now index edge.now)) }
    ensures memory { IsOkUnless result Refusal.Memory }
{
    match edges.target(index, edge) {
        Some(target) => write_shared_arrow(edges, sharing, index, target, out),
        None => write_own(edges, index, edge, out),
    }
}

/// Appends `edge`, which shares no arrow.
fn write_own(
    edges: &StateEdges<'_>,
    index: usize,
    edge: &EdgeRef<'_>,
    out: &mut Vec<u8>,
) -> Result<(), Refusal>
    requires roles { HaveRoles edges.now }
    requires edge { IsEdgeOf edges.now index edge.now }
    ensures ok { OnOk result (out.new.items ≡ out.old.items
        ++ own_text edges.now.state.now.number (drawn_at edges.now index edge.now)) }
    ensures memory { IsOkUnless result Refusal.Memory }
{
    if edge.targets().len() == 1 {
        write_arrow(edges, index, edge, out)
    } else {
        write_branch(edges, index, edge, out)
    }
}
