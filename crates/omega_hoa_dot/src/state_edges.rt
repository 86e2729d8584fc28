//! Edges of a state that are to be drawn.

ghost use Rattle.std.specs.Prelude.{◌≡◌, ◌+◌, ◌<◌, IfOk, IsOkUnless, length};
ghost use Rattle.omega_hoa_dot.specs.Arrows.{shared_target as shared_target_of};
ghost use Rattle.omega_hoa_dot.specs.private.layout.Drawing.{HaveRoles, IsEdgeOf, drawn_all, drawn_at};
ghost use Rattle.omega_hoa_dot.specs.private.layout.Marking.{role_at as role_at_number};
ghost use Rattle.omega_hoa_dot.specs.private.layout.Sharing.{targets_of};

use crate::role::{Role, role_at};
use omega_hoa_automaton::{Automaton, EdgeRef, State};
use omega_text::Refusal;
use std::alloc::Global;

/// The edges of a state that are to be drawn.
#[derive(Clone, Copy)]
pub(crate) struct StateEdges<'a> {
    pub(crate) automaton: &'a Automaton,
    /// The roles of all edges by number.
    pub(crate) roles: &'a [Role],
    pub(crate) state: &'a State,
    /// The number of the state's first edge.
    pub(crate) first: usize,
}

impl<'a> StateEdges<'a> {
    /// Returns the number of edges.
    pub(crate) fn len(&self) -> usize
        ensures { result ≡ length self.now.state.now.edges }
    {
        self.state.edges.len()
    }

    /// Returns the edge of this `index`.
    pub(crate) fn edge(&self, index: usize) -> EdgeRef<'a>
        requires roles { HaveRoles self.now }
        requires within { index < length self.now.state.now.edges }
        ensures { IsEdgeOf self.now index result }
    {
        self.state.edges.edge(index)
    }

    /// Returns the number of the edge of this `index`.
    pub(crate) fn number(&self, index: usize) -> usize
        requires roles { HaveRoles self.now }
        requires within { index < length self.now.state.now.edges }
        ensures { result ≡ self.now.first + index }
    {
        self.first + index
    }

    /// Returns the role of the edge of this `index`.
    pub(crate) fn role(&self, index: usize) -> Role
        requires roles { HaveRoles self.now }
        requires within { index < length self.now.state.now.edges }
        ensures { result ≡ role_at_number self.now.roles.now (self.now.first + index) }
    {
        role_at(self.roles, self.number(index))
    }

    /// Returns the state that `edge` shares an arrow to, if it shares one.
    pub(crate) fn target(&self, index: usize, edge: &EdgeRef<'_>) -> Option<u32>
        requires roles { HaveRoles self.now }
        requires edge { IsEdgeOf self.now index edge.now }
        ensures { let drawn = drawn_at self.now index edge.now in
            result ≡ shared_target_of drawn.role drawn.targets }
    {
        shared_target(self.role(index), edge.targets())
    }

    /// Returns for each edge the state that it shares an arrow to, if it shares one.
    pub(crate) fn targets(&self, alloc: Global) -> Result<Vec<Option<u32>>, Refusal>
        requires { HaveRoles self.now }
        ensures targets { IfOk result (λ targets. targets.items ≡ targets_of (drawn_all self.now)) }
        ensures memory { IsOkUnless result Refusal.Memory }
    {
        let mut targets = Vec::with_capacity(alloc, self.len())?;
        for index in 0..self.len() {
            let edge = self.edge(index);
            targets.push(self.target(index, &edge))?;
        }
        Ok(targets)
    }
}

/// Returns the state that an edge with this `role` shares an arrow to: its only target, if it is on no lasso.
fn shared_target(role: Role, targets: &[u32]) -> Option<u32>
    ensures { result ≡ shared_target_of role targets.now }
{
    match (role, targets) {
        (Role::Plain, [target]) => Some(*target),
        _ => None,
    }
}
