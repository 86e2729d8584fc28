//! The marks of edges: those of the state that they leave and their own.

ghost use Rattle.std.specs.Prelude.{◌≡◌, ◌++◌, map, IfOk, IsOkUnless, OnOk};
ghost use Rattle.omega_hoa_automaton.specs.Automaton.{edges_from, edges_of};
ghost use Rattle.omega_lang_runs.specs.Lasso.{marks_of};

use omega_hoa_automaton::{Automaton, Refusal, State};
use omega_text::Numbers;
use std::alloc::Global;

/// Returns for each edge of `automaton`, by number, the marks of the state that it leaves and then its own.
pub fn edge_marks(alloc: Global, automaton: &Automaton) -> Result<Vec<Numbers>, Refusal>
    ensures marks { IfOk result (λ marks. marks.items ≡ map marks_of (edges_of automaton.now)) }
    ensures memory { IsOkUnless result Refusal.Memory }
{
    let mut marks = Vec::with_capacity(alloc, automaton.edge_count() as usize)?;
    for state in automaton.defined() {
        add_marks(alloc, &mut marks, state)?;
    }
    Ok(marks)
}

/// Appends the marks of the edges of `state`.
fn add_marks(alloc: Global, marks: &mut Vec<Numbers>, state: &State) -> Result<(), Refusal>
    ensures marks { OnOk result
        (marks.new.items ≡ marks.old.items ++ map marks_of (edges_from state.now)) }
    ensures memory { IsOkUnless result Refusal.Memory }
{
    for at in 0..state.edges.len() {
        let edge = state.edges.edge(at);
        let joined = concatenation(alloc, state.marks.as_slice(), edge.marks())?;
        marks.push(joined)?;
    }
    Ok(())
}

/// Returns `first` followed by `second`.
fn concatenation(alloc: Global, first: &[u32], second: &[u32]) -> Result<Numbers, Refusal>
    ensures list { IfOk result (λ list. list ≡ first.now ++ second.now) }
    ensures memory { IsOkUnless result Refusal.Memory }
{
    let mut list = Numbers::from_slice(alloc, first)?;
    for number in second {
        list.push(alloc, *number)?;
    }
    Ok(list)
}
