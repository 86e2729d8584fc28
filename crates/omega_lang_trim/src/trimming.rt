//! An automaton without its useless states.

ghost use Rattle.std.specs.Prelude.{IfErr, IfOk, OnOk};
ghost use Rattle.omega_hoa_automaton.specs.Meaning.{Means};
ghost use Rattle.omega_lang_lasso_search.specs.Searching.{IsSearchable};
ghost use Rattle.omega_lang_trim.specs.Refusing.{IsTrimRefusal};
ghost use Rattle.omega_lang_trim.specs.Trimmed.{IsTrimmed};
ghost use Rattle.omega_lang_trim.specs.Written.{written as written_form};

use crate::forming::trimmed_automaton;
use crate::useful::useful_states;
use omega_hoa_automaton::{Automaton, has_universal_branching};
use omega_text::{Refusal, TaskFault};
use std::alloc::Global;

/// Returns `automaton` without its useless states. It accepts the same words (law `trims_accept_the_same` of
/// `omega_laws`).
///
/// A state is useful if usable edges lead to it from a start, and an accepting lasso starts in it, whatever the
/// acceptance formula (HOA v1, acceptance). Useful states stay, and so do the starts and edges all of whose states
/// stay. States are renumbered in the order of their numbers. The order of the body, labels, marks and names of states
/// stay as they are, and so do propositions, the acceptance and its name, and the name of the automaton. If an edge of
/// a state without labels goes, the others get the labels of their valuations. The tool, the properties and the headers
/// that the format leaves open are left out, as what they say may no longer hold. If no state is useful, none is left.
///
/// Refusals, the first of these that applies:
///
/// - [TaskFault::UniversalBranch] if a start or an edge lists several states.
/// - [TaskFault::TooManyPropositions] if a label mentions over `MOST_MENTIONED` propositions and `is_satisfiable` gives
///   it up.
/// - [TaskFault::TooLarge] if the acceptance or a label that stays is deeper than `MOST_DEPTH` with the parentheses
///   that it needs, or if the labels that stay pass a limit of automata, as those of valuations may.
///
/// Takes the time of `is_satisfiable` for each label. Otherwise linear in the states and edges, and in the marks for
/// each atom of the acceptance formula. Besides, one `accepting_walk` is made for each strongly connected component
/// whose edges together show neither that a closed walk accepts nor that none does. Its scratch space has a number for
/// each state. A formula without `Fin` has no such component.
pub fn trim(alloc: Global, automaton: &Automaton) -> Result<Automaton, Refusal>
    ensures trimmed { IfOk result (IsTrimmed automaton.now) }
    ensures written { IfOk result (λ trim. Means (written_form trim) trim) }
    ensures given { OnOk result (IsSearchable automaton.now) }
    ensures refused { IfErr result (IsTrimRefusal automaton.now) }
{
    if has_universal_branching(automaton) {
        return Err(Refusal::Task(TaskFault::UniversalBranch));
    }
    let kept = useful_states(alloc, automaton)?;
    let trimmed = trimmed_automaton(alloc, automaton, &kept)?;
    Ok(trimmed)
}
