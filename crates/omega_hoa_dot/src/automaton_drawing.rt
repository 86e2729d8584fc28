//! Drawings of automata.

ghost use Rattle.std.specs.Prelude.{◌≡◌, IfOk, IsOkUnless};
ghost use Rattle.omega_hoa_dot.specs.AutomatonDrawing.{drawing_of_automaton, drawing_of_lasso};

use crate::edges::write_edges;
use crate::role::roles_of;
use crate::states::{write_front, write_starts, write_states};
use omega_hoa_automaton::Automaton;
use omega_text::Refusal;
use std::alloc::Global;

/// Draws `automaton` as a graph in DOT.
///
/// - Above it are its name and its acceptance formula.
/// - A state has its number, its name, its own label in brackets and its sets in braces. States that are only counted,
///   and neither defined nor started from nor entered, are not drawn.
/// - An edge has its label and its sets. An edge without a label in a state without one has the label of its valuation.
/// - Labels have the names of propositions, in quotes if they are no identifiers, or are `t` or `f`.
/// - Edges of a state to the same one state share an arrow, which has the lines of each.
/// - An arrow from nowhere leads to each start. A universal branch, and a start of several states, leads to a point and
///   from there to each of its states.
///
/// The text is in the DOT language (graphviz.org/doc/info/lang.html) and in UTF-8, whatever bytes the names have. The
/// cost is linear in it, except for n log n in the edges of a state.
pub fn draw_automaton(alloc: Global, automaton: &Automaton) -> Result<Vec<u8>, Refusal>
    ensures text { IfOk result (λ text. text.items ≡ drawing_of_automaton automaton.now) }
    ensures memory { IsOkUnless result Refusal.Memory }
{
    draw_lasso(alloc, automaton, &[], &[])
}

/// Draws `automaton` with a lasso, given by the numbers of the edges of its `stem` and `cycle`.
///
/// It is drawn as without one, except that the edges of the cycle are bold and red, and others of the stem bold and
/// blue. Each of them has its number and an arrow of its own. Numbers of no edge change nothing.
pub fn draw_lasso(
    alloc: Global,
    automaton: &Automaton,
    stem: &[u32],
    cycle: &[u32],
) -> Result<Vec<u8>, Refusal>
    ensures text { IfOk result
        (λ text. text.items ≡ drawing_of_lasso automaton.now stem.now cycle.now) }
    ensures memory { IsOkUnless result Refusal.Memory }
{
    let roles = roles_of(alloc, automaton.edge_count(), stem, cycle)?;
    let mut out = Vec::with_capacity(alloc, 128)?;
    write_front(automaton, &mut out)?;
    write_starts(automaton, &mut out)?;
    write_states(automaton, &mut out)?;
    write_edges(automaton, roles.as_slice(), &mut out)?;
    out.extend_from_slice(b"}\n")?;
    Ok(out)
}
