//! Lines in the labels of edges.

ghost use Rattle.std.specs.Prelude.{◌≡◌, ◌++◌, IfSome, IsOkUnless, OnOk};
ghost use Rattle.std.specs.Option.{option_copied};
ghost use Rattle.omega_hoa_automaton.specs.Automaton.{IsLabel};
ghost use Rattle.omega_hoa_dot.specs.EdgeLines.{expression_line, number_line};
ghost use Rattle.omega_hoa_dot.specs.private.layout.Drawing.{HaveRoles, IsEdgeOf, drawn_at};

use crate::naming::write_named;
use crate::role::Role;
use crate::state_edges::StateEdges;
use crate::states::write_marks;
use crate::valuations::write_valuation;
use omega_hoa_automaton::{Automaton, EdgeRef};
use omega_hoa_label::Label;
use omega_text::{Refusal, write_number};

/// Appends the lines in the label of `edge`.
pub(crate) fn write_lines(
    edges: &StateEdges<'_>,
    index: usize,
    edge: &EdgeRef<'_>,
    out: &mut Vec<u8>,
) -> Result<(), Refusal>
    requires roles { HaveRoles edges.now }
    requires edge { IsEdgeOf edges.now index edge.now }
    ensures ok { OnOk result
        (out.new.items ≡ out.old.items ++ (drawn_at edges.now index edge.now).lines) }
    ensures memory { IsOkUnless result Refusal.Memory }
{
    write_number_line(edges.role(index), edges.number(index), out)?;
    write_expression_line(
        edges.automaton,
        &edges.state.label,
        index,
        edge.label(),
        out,
    )?;
    write_marks(edge.marks(), out)
}

/// Appends the line of the `number` of an edge with this `role`, if it is on a lasso.
fn write_number_line(role: Role, number: usize, out: &mut Vec<u8>) -> Result<(), Refusal>
    ensures ok { OnOk result (out.new.items ≡ out.old.items ++ number_line role number) }
    ensures memory { IsOkUnless result Refusal.Memory }
{
    match role {
        Role::Plain => Ok(()),
        Role::Stem | Role::Cycle => {
            out.extend_from_slice(b"edge ")?;
            write_number(number as u128, out)?;
            out.extend_from_slice(b"\\n")?;
            Ok(())
        }
    }
}

/// Appends the line of an edge's label, by the label `of_state` of its state, its `index` there and its own `label`.
fn write_expression_line(
    automaton: &Automaton,
    of_state: &Option<Label>,
    index: usize,
    label: Option<&Label>,
    out: &mut Vec<u8>,
) -> Result<(), Refusal>
    requires { IfSome (option_copied label) (IsLabel automaton.now) }
    ensures ok { OnOk result (out.new.items ≡ out.old.items
        ++ expression_line automaton.now.propositions of_state.now index (option_copied label.entry)) }
    ensures memory { IsOkUnless result Refusal.Memory }
{
    automaton.keeps_limits();
    match (label, of_state) {
        (Some(label), _) => write_named(label, automaton.propositions(), out)?,
        (None, None) => write_valuation(automaton.propositions(), index, out)?,
        (None, Some(_)) => return Ok(()),
    }
    out.extend_from_slice(b"\\n")?;
    Ok(())
}
