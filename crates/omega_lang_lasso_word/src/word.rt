ghost use Rattle.std.specs.Prelude.{◌≡◌, ◌++◌, IfOk, IsOkUnless, OnOk};
ghost use Rattle.omega_lang_runs.specs.Lasso.{label_of};
ghost use Rattle.omega_lang_runs.specs.Places.{ArePlaces};
ghost use Rattle.omega_lang_lasso_word.specs.Letters.{letter_text, text_of_letter};
ghost use Rattle.omega_lang_lasso_word.specs.WordText.{word_text};

use crate::element_text::ElementText;
use crate::form::lasso_form;
use crate::letters::{write_label, write_valuation};
use omega_hoa_automaton::{Automaton, EdgeRef, State};
use omega_lang_runs::{EdgePlace, edge_of, edge_places};
use omega_text::{ByteString, Refusal};
use std::alloc::Global;

/// Returns the word of a lasso, given by the numbers of the edges of its `stem` and `cycle`. As Spot writes words, it
/// has the letters of the stem, a semicolon after each, and those of the cycle in `cycle{..}`.
///
/// A letter is what the label of its edge demands, by the names of the propositions, or `1` if anything goes. A name is
/// in quotes unless it is an identifier that Spot reads as a name (tl.pdf, atomic propositions). An edge without a
/// label has the valuation of its index. Each word that fits the text is accepted, by
/// `laws::fitting_words_are_accepted`.
///
/// Linear in the states and edges of the automaton, the lasso and the labels along it.
pub fn word_of(
    alloc: Global,
    automaton: &Automaton,
    stem: &[u32],
    cycle: &[u32],
) -> Result<Vec<u8>, Refusal>
    ensures text { IfOk result (λ text. text.items ≡ word_text automaton.now stem.now cycle.now) }
    ensures memory { IsOkUnless result Refusal.Memory }
{
    let places = edge_places(alloc, automaton)?;
    let letters = EdgeLetters {
        automaton,
        places: places.as_slice(),
    };
    lasso_form(alloc, &letters, stem, cycle)
}

/// The letters of an automaton's edges, which are found by their places.
#[derive(Clone, Copy)]
struct EdgeLetters<'a> {
    automaton: &'a Automaton,
    places: &'a [EdgePlace],
}

impl<'a> ElementText<u32> for EdgeLetters<'a> {
    ghost can_tell = { λ letters. ArePlaces letters.automaton.now letters.places.now };

    ghost told = { λ letters. letter_text letters.automaton.now };

    fn tell(&self, number: &u32, out: &mut Vec<u8>) -> Result<(), Refusal> {
        match edge_of(self.automaton, self.places, *number) {
            None => Ok(()),
            Some(found) => {
                let edge = found.state.edges.edge(found.index);
                write_letter(
                    self.automaton.propositions(),
                    found.state,
                    &edge,
                    found.index,
                    out,
                )
            }
        }
    }
}

/// Appends the letter of `edge`, which is at this `index` among the edges of `state`.
fn write_letter(
    names: &[ByteString],
    state: &State,
    edge: &EdgeRef<'_>,
    index: usize,
    out: &mut Vec<u8>,
) -> Result<(), Refusal>
    ensures text { OnOk result (out.new.items ≡ out.old.items ++ text_of_letter names.now index
        (label_of (record { source = state.now; edge = edge.now }))) }
    ensures memory { IsOkUnless result Refusal.Memory }
{
    match (&state.label, edge.label()) {
        (Some(label), _) => write_label(names, label, out),
        (None, Some(label)) => write_label(names, label, out),
        (None, None) => write_valuation(names, index, out),
    }
}
