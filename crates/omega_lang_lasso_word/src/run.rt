ghost use Rattle.std.specs.Prelude.{◌≡◌, ◌++◌, IfOk, IsOkUnless, OnOk, option_map};
ghost use Rattle.omega_lang_runs.specs.Places.{ArePlaces};
ghost use Rattle.omega_lang_lasso_word.specs.RunText.{name_after, run_text, state_text, visit_text};

use crate::element_text::ElementText;
use crate::form::lasso_form;
use omega_hoa_automaton::{Automaton, State};
use omega_lang_runs::{EdgePlace, edge_of, edge_places};
use omega_text::{Refusal, write_number};
use std::alloc::Global;

/// Returns the run of a lasso, given by the numbers of the edges of its `stem` and `cycle`. In the form of a word, it
/// has the states that the edges of the stem leave, a semicolon after each, and those that the edges of the cycle leave
/// in `cycle{..}`.
///
/// A state is its number, and if it has a name, a space and the name in double quotes, as it stands in the text of the
/// automaton. A number of no edge has no state.
///
/// Linear in the states and edges of the automaton, the lasso and the names along it.
pub fn run_of(
    alloc: Global,
    automaton: &Automaton,
    stem: &[u32],
    cycle: &[u32],
) -> Result<Vec<u8>, Refusal>
    ensures text { IfOk result (λ text. text.items ≡ run_text automaton.now stem.now cycle.now) }
    ensures memory { IsOkUnless result Refusal.Memory }
{
    let places = edge_places(alloc, automaton)?;
    let visits = Visits {
        automaton,
        places: places.as_slice(),
    };
    lasso_form(alloc, &visits, stem, cycle)
}

/// The states that an automaton's edges leave, which are found by their places.
#[derive(Clone, Copy)]
struct Visits<'a> {
    automaton: &'a Automaton,
    places: &'a [EdgePlace],
}

impl<'a> ElementText<u32> for Visits<'a> {
    ghost can_tell = { λ visits. ArePlaces visits.automaton.now visits.places.now };

    ghost told = { λ visits. visit_text visits.automaton.now };

    fn tell(&self, number: &u32, out: &mut Vec<u8>) -> Result<(), Refusal> {
        match edge_of(self.automaton, self.places, *number) {
            None => Ok(()),
            Some(found) => write_state(found.state, out),
        }
    }
}

/// Appends `state`: its number, and its name if it has one.
fn write_state(state: &State, out: &mut Vec<u8>) -> Result<(), Refusal>
    ensures text { OnOk result (out.new.items ≡ out.old.items ++ state_text state.now) }
    ensures memory { IsOkUnless result Refusal.Memory }
{
    write_number(u128::from(state.number), out)?;
    write_name(state.name.as_slice(), out)
}

/// Appends `name` between double quotes, after a space, if there is one.
fn write_name(name: Option<&[u8]>, out: &mut Vec<u8>) -> Result<(), Refusal>
    ensures text { OnOk result
        (out.new.items ≡ out.old.items ++ name_after (option_map (λ name. name.now) name.entry)) }
    ensures memory { IsOkUnless result Refusal.Memory }
{
    if let Some(name) = name {
        out.extend_from_slice(b" \"")?;
        out.extend_from_slice(name)?;
        out.push(b'"')?;
    }
    Ok(())
}
