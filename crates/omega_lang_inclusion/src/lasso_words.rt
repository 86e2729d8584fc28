//! The words along a lasso of an automaton.

ghost use Rattle.std.specs.Prelude.{◌≡◌, map, IfOk, IsOkUnless};
ghost use Rattle.omega_lang_runs.specs.Places.{ArePlaces};
ghost use Rattle.omega_lang_inclusion.specs.private.LassoWords.{edge_conjuncts, words_along};

use omega_hoa_automaton::{Automaton, Refusal};
use omega_hoa_edges::{conjuncts_of, edge_label};
use omega_hoa_label::Label;
use omega_lang_lasso_word::LassoWord;
use omega_lang_runs::{EdgePlace, edge_of, edge_places};
use omega_text::Seq;
use std::alloc::Global;

/// Returns the words along the edges `stem` and `cycle` of `automaton`.
pub(crate) fn words_along(
    alloc: Global,
    automaton: &Automaton,
    stem: &[u32],
    cycle: &[u32],
) -> Result<LassoWord, Refusal>
    ensures words { IfOk result (λ words. words ≡ words_along automaton.now stem.now cycle.now) }
    ensures memory { IsOkUnless result Refusal.Memory }
{
    let places = edge_places(alloc, automaton)?;
    let before = letters_along(alloc, automaton, places.as_slice(), stem)?;
    let around = letters_along(alloc, automaton, places.as_slice(), cycle)?;
    LassoWord::over(alloc, automaton.propositions(), before, around)
}

/// Returns the letters of the edges with these `numbers`, each as its conjuncts.
fn letters_along(
    alloc: Global,
    automaton: &Automaton,
    places: &[EdgePlace],
    numbers: &[u32],
) -> Result<Vec<Seq<Label>>, Refusal>
    requires { ArePlaces automaton.now places.now }
    ensures letters { IfOk result
        (λ letters. letters.items ≡ map (edge_conjuncts automaton.now) numbers.now) }
    ensures memory { IsOkUnless result Refusal.Memory }
{
    let mut letters = Vec::with_capacity(alloc, numbers.len())?;
    for number in numbers {
        let conjuncts = conjuncts_at(alloc, automaton, places, *number)?;
        letters.push(Seq::from_vec(conjuncts))?;
    }
    Ok(letters)
}

/// Returns the conjuncts of the label of the edge `number`, each once, or none if there is no such edge.
fn conjuncts_at(
    alloc: Global,
    automaton: &Automaton,
    places: &[EdgePlace],
    number: u32,
) -> Result<Vec<Label>, Refusal>
    requires { ArePlaces automaton.now places.now }
    ensures conjuncts { IfOk result (λ found. found.items ≡ edge_conjuncts automaton.now number) }
    ensures memory { IsOkUnless result Refusal.Memory }
{
    match edge_of(automaton, places, number) {
        Some(found) => {
            let count = automaton.propositions().len();
            let edge = found.state.edges.edge(found.index);
            let label = edge_label(alloc, count, found.state, &edge, found.index)?;
            conjuncts_of(alloc, label.get())
        }
        None => Ok(Vec::new(alloc)),
    }
}
