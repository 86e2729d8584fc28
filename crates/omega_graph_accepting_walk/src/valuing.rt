//! The values of all parts of the formula on a set of edges.
ghost use Rattle.std.specs.Prelude.{◌≡◌, length, IfOk, IsOkUnless};
ghost use Rattle.omega_graph_accepting_walk.specs.private.Formulas.{IsFormula, IsNode};
ghost use Rattle.omega_graph_accepting_walk.specs.private.Walks.{AreSetsOn, value_on};
ghost use Rattle.omega_graph_accepting_walk.specs.private.Search.{AreValuesOn, HaveMarks};
ghost use Rattle.omega_graph_accepting_walk.specs.private.Search.{formulas_of, graph_of};

use crate::node::Node;
use crate::search::WalkSearch;
use crate::set_table::{occurs_by, set_table};
use omega_text::Refusal;
use std::alloc::Global;

/// The value of a formula on a set of edges, by their marks.
#[derive(Clone, Copy)]
pub(crate) struct FormulaValue {
    /// Whether it holds of all the edges together.
    pub(crate) holds: bool,
    /// Whether it holds of them if each `Fin` counts as true. If not, it holds of no closed walk of theirs.
    pub(crate) possible: bool,
}

/// Returns the value of each node on `edges`. Makes one pass over the marks of the edges, and at most one more for each
/// atom with `!` or past the table of sets.
pub(crate) fn values(
    alloc: Global,
    search: &WalkSearch<'_>,
    edges: &[u32],
) -> Result<Vec<FormulaValue>, Refusal>
    requires formula { IsFormula search.now.nodes.now }
    requires edges { HaveMarks search.now edges.now }
    ensures values { IfOk result (λ values. AreValuesOn search.now edges.now values.items) }
    ensures count { IfOk result (λ values. length values.items ≡ length search.now.nodes.now) }
    ensures memory { IsOkUnless result Refusal.Memory }
{
    let sets = set_table(alloc, search, edges)?;
    let sets = sets.as_slice();
    let mut values = Vec::new(alloc);
    for node in search.nodes {
        let value = node_value(search, edges, sets, *node, values.as_slice());
        values.push(value)?;
    }
    Ok(values)
}

/// Returns the value of `node`, the next one, from the values of the nodes before it.
fn node_value(
    search: &WalkSearch<'_>,
    edges: &[u32],
    sets: &[bool],
    node: Node,
    before: &[FormulaValue],
) -> FormulaValue
    requires node { IsNode (formulas_of search.now) (length before.now) node }
    requires edges { HaveMarks search.now edges.now }
    requires sets { AreSetsOn (graph_of search.now) edges.now sets.now }
    requires before { AreValuesOn search.now edges.now before.now }
    ensures { result
        ≡ value_on (graph_of search.now) edges.now (formulas_of search.now (length before.now)) }
{
    match node {
        Node::Constant(value) => FormulaValue {
            holds: value,
            possible: value,
        },
        Node::Inf(negated, set) => {
            let met = occurs_by(search, edges, sets, negated, set);
            FormulaValue {
                holds: met,
                possible: met,
            }
        }
        Node::Fin(negated, set) => FormulaValue {
            holds: !occurs_by(search, edges, sets, negated, set),
            possible: true,
        },
        Node::And(left, right) => {
            let left = before[left as usize];
            let right = before[right as usize];
            FormulaValue {
                holds: left.holds && right.holds,
                possible: left.possible && right.possible,
            }
        }
        Node::Or(left, right) => {
            let left = before[left as usize];
            let right = before[right as usize];
            FormulaValue {
                holds: left.holds || right.holds,
                possible: left.possible || right.possible,
            }
        }
    }
}
