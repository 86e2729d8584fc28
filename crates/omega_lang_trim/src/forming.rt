//! A trimmed automaton, by way of what a text writes of it.

ghost use Rattle.std.specs.Prelude.{◌≡◌, IfErr, IfOk};
ghost use Rattle.omega_hoa_automaton.specs.Meaning.{Means};
ghost use Rattle.omega_hoa_edges.specs.Fitting.{IsLarge};
ghost use Rattle.omega_lang_trim.specs.Refusing.{IsTooLarge, PassesLimit};
ghost use Rattle.omega_lang_trim.specs.Trimmed.{IsTrimmed, trimmed};
ghost use Rattle.omega_lang_trim.specs.Useful.{AreUsefulStates};
ghost use Rattle.omega_lang_trim.specs.Written.{header as header_of, written as written_form};
ghost use Rattle.omega_lang_trim.specs.private.Placed.{IsFew};
ghost use Rattle.omega_lang_trim.specs.private.Writing.{StatesHaveDeepLabel};

use crate::assembling::{meaning, raw_automaton_of};
use crate::header::header;
use crate::states::kept_states;
use indexmap::IndexSet;
use omega_acc::{written_formulas_mean, written_labels_mean};
use omega_hoa_automaton::{Automaton, RawAutomaton, Refusal};
use omega_hoa_edges::written_formula;
use omega_hoa_syntax::RawItem;
use std::alloc::Global;

/// Returns `automaton` with the states of `kept` alone, which are the useful ones. Fails with [TaskFault::TooLarge] if
/// the result, as a text writes it, passes a limit.
pub(crate) fn trimmed_automaton(
    alloc: Global,
    automaton: &Automaton,
    kept: &IndexSet<u32>,
) -> Result<Automaton, Refusal>
    requires useful { AreUsefulStates automaton.now kept.now.keys }
    requires few { IsFew kept.now.keys }
    ensures trimmed { IfOk result (IsTrimmed automaton.now) }
    ensures written { IfOk result (λ trim. Means (written_form trim) trim) }
    ensures err { IfErr result (IsLarge (IsTooLarge automaton.now)) }
{
    automaton.keeps_limits();
    written_labels_mean();
    written_formulas_mean();
    match raw_trimmed(alloc, automaton, kept) {
        Ok(raw) => meaning(alloc, raw),
        Err(refusal) => Err(refusal),
    }
}

/// Returns the trimmed automaton as a text writes it. Fails with [TaskFault::TooLarge] if the acceptance or a label is
/// then deeper than `MOST_DEPTH`.
fn raw_trimmed(
    alloc: Global,
    automaton: &Automaton,
    kept: &IndexSet<u32>,
) -> Result<RawAutomaton, Refusal>
    requires { IsFew kept.now.keys }
    ensures written { IfOk result (λ raw. raw ≡ written_form (trimmed kept.now.keys automaton.now)) }
    ensures err { IfErr result (IsLarge (PassesLimit (trimmed kept.now.keys automaton.now))) }
{
    let formula = written_formula(alloc, automaton.acceptance())?;
    match header(alloc, automaton, kept, formula) {
        Ok(items) => written_under(alloc, automaton, kept, items),
        Err(refusal) => Err(refusal),
    }
}

/// Returns the trimmed automaton as a text writes it, under the header `items`. Fails with [TaskFault::TooLarge] if a
/// label is then deeper than `MOST_DEPTH`.
fn written_under(
    alloc: Global,
    automaton: &Automaton,
    kept: &IndexSet<u32>,
    items: Vec<RawItem>,
) -> Result<RawAutomaton, Refusal>
    requires few { IsFew kept.now.keys }
    requires header { items.items ≡ header_of (trimmed kept.now.keys automaton.now) }
    ensures written { IfOk result (λ raw. raw ≡ written_form (trimmed kept.now.keys automaton.now)) }
    ensures err { IfErr result
        (IsLarge (StatesHaveDeepLabel (trimmed kept.now.keys automaton.now).defined)) }
{
    match kept_states(alloc, automaton, kept) {
        Ok(states) => raw_automaton_of(alloc, items, states),
        Err(refusal) => Err(refusal),
    }
}
