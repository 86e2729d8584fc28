ghost use Rattle.std.specs.Prelude.{◌*◌, ◌≤◌, ◌↔◌, IfErr, IfNone, IfOk, IfSome, IsOkUnless, IsTrue};
ghost use Rattle.std.specs.Option.{option_copied};
ghost use Rattle.omega_hoa_satisfiable.specs.Cubes.{literal_count};
ghost use Rattle.omega_hoa_satisfiable.specs.Limits.{most_visited};
ghost use Rattle.omega_hoa_satisfiable.specs.Satisfiable.{IsSatisfiable};
ghost use Rattle.omega_hoa_satisfiable.specs.Undecided.{GivesUpOn, IsHard, IsUndecidedLabel};

use crate::encoding::append_label;
use crate::exits::Exits;
use crate::literals::Literals;
use crate::satisfying::satisfiable;
use crate::search::search;
use crate::steps::{DONE, STUCK, first_steps};
use crate::wide_table::WideTable;
use omega_hoa_label::Label;
use omega_text::{Refusal, TaskFault};
use std::alloc::Global;

/// The fewest atoms and operators of a label of which a truth table is made to be judged. Fewer are judged sooner by
/// passes.
const LEAST_TABLED: usize = 256;

/// Whether some set of propositions makes `label` true.
///
/// A conjunction of literals over the propositions below 64 is judged by their bits. A large label that is made of such
/// conjunctions alone by `|`, or is the negation of one, is judged by its truth table, if it mentions no proposition
/// from twelve on. Any other label that mentions at most `MOST_MENTIONED` propositions is judged by [`satisfiable`],
/// without memory. For others a DPLL-like search assumes the first literal that it needs and goes on; if this fails it
/// backtracks. It visits at most [`MOST_VISITED`](crate::MOST_VISITED) steps. It needs at most two for each literal of
/// the label's disjunctive normal form, and one more. Fails with [`TaskFault::TooManyPropositions`] if the steps do not
/// suffice. They do for each label that is in that form
/// ([`normal_forms_are_decided`](crate::normal_forms_are_decided)).
pub fn is_satisfiable(alloc: Global, label: &Label) -> Result<bool, Refusal>
    ensures ok { IfOk result (λ possible. IsTrue possible ↔ IsSatisfiable label.now) }
    ensures err { IfErr result (IsUndecidedLabel label.now) }
{
    if let Some(literals) = Literals::of(label) {
        return Ok(literals.can_hold());
    }
    if let Some(possible) = answer_by_table(alloc, label)? {
        return Ok(possible);
    }
    match satisfiable(label) {
        Ok(possible) => Ok(possible),
        Err(_) => match answer_by_search(alloc, label)? {
            Some(possible) => Ok(possible),
            None => Err(Refusal::Task(TaskFault::TooManyPropositions)),
        },
    }
}

/// Whether `label` can be true. A label that is absent always is.
///
/// Fails with [TaskFault::TooManyPropositions] if [`is_satisfiable`] gives `label` up, which mentions over
/// `MOST_MENTIONED` propositions then.
pub fn can_hold(alloc: Global, label: Option<&Label>) -> Result<bool, Refusal>
    ensures judged { IfOk result (λ possible.
        IsTrue possible ↔ IfSome (option_copied label.entry) IsSatisfiable) }
    ensures refused { IfErr result (GivesUpOn (IsHard (option_copied label.entry))) }
{
    match label {
        None => Ok(true),
        Some(label) => {
            let possible = is_satisfiable(alloc, label)?;
            Ok(possible)
        }
    }
}

/// Returns the answer of the truth table, or none if the label is small or has no table by its cubes.
fn answer_by_table(alloc: Global, label: &Label) -> Result<Option<bool>, Refusal>
    ensures ok { IfOk result
        (λ answer. IfSome answer (λ possible. IsTrue possible ↔ IsSatisfiable label.now)) }
    ensures memory { IsOkUnless result Refusal.Memory }
{
    if label.size() < LEAST_TABLED {
        return Ok(None);
    }
    match WideTable::by_cubes(alloc, label)? {
        Some(table) => Ok(Some(table.can_hold())),
        None => Ok(None),
    }
}

/// Returns the answer of the search, or none if it takes too many steps.
fn answer_by_search(alloc: Global, label: &Label) -> Result<Option<bool>, Refusal>
    ensures ok { IfOk result
        (λ answer. IfSome answer (λ possible. IsTrue possible ↔ IsSatisfiable label.now)) }
    ensures none { IfOk result (λ answer. IfNone answer (most_visited ≤ 2 * literal_count label.now)) }
    ensures memory { IsOkUnless result Refusal.Memory }
{
    let mut steps = first_steps(alloc)?;
    let exits = Exits {
        after: DONE,
        otherwise: STUCK,
        whole: true,
    };
    let start = append_label(label, exits, &mut steps)?;
    search(alloc, steps.as_slice(), start)
}
