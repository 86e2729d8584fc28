ghost use Rattle.std.specs.Prelude.{◌≡◌, ◌<◌, [], ◌∷◌, IfOk, IsOkUnless, length};
ghost use Rattle.omega_hoa_dot.specs.private.layout.Marking.{AreMarked, AreRoles, role_at};

use omega_text::Refusal;
use std::alloc::Global;

/// The part of a lasso that an edge is on.
#[derive(Clone, Copy)]
pub(crate) enum Role {
    /// It is on neither part.
    Plain,
    /// It is on the stem and not on the cycle.
    Stem,
    /// It is on the cycle.
    Cycle,
}

/// Returns the role of each of `edges` edges in the lasso of `stem` and `cycle`, by number. A number of no edge is
/// ignored.
pub(crate) fn roles_of(
    alloc: Global,
    edges: u32,
    stem: &[u32],
    cycle: &[u32],
) -> Result<Vec<Role>, Refusal>
    ensures roles { IfOk result (λ roles. AreRoles stem.now cycle.now edges roles.items) }
    ensures memory { IsOkUnless result Refusal.Memory }
{
    let mut roles = vec![in alloc; Role::Plain; edges as usize]?;
    mark(roles.as_mut_slice(), stem, Role::Stem);
    mark(roles.as_mut_slice(), cycle, Role::Cycle);
    Ok(roles)
}

/// Returns the role of the edge with this `number`.
pub(crate) fn role_at(roles: &[Role], number: usize) -> Role
    requires { number < length roles.now }
    ensures { result ≡ role_at roles.now number }
{
    roles[number]
}

/// Gives `role` to all `numbers`.
fn mark(roles: &mut [Role], numbers: &[u32], role: Role)
    ensures { AreMarked numbers.now role roles.old roles.new }
{
    for number in numbers {
        mark_one(roles, *number, role);
    }
}

/// Gives `role` to `number`, if it has an entry.
fn mark_one(roles: &mut [Role], number: u32, role: Role)
    ensures { AreMarked (number ∷ []) role roles.old roles.new }
{
    let number = number as usize;
    if number < roles.len() {
        roles[number] = role;
    }
}
