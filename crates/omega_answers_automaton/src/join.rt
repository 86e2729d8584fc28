ghost use Rattle.std.specs.Prelude.{IfErr, IfOk};
ghost use Rattle.omega_lang_union.specs.Refusing.{IsUnionRefusal};
ghost use Rattle.omega_answers_automaton.specs.Join.{IsJoinAnswer, IsJoinRefused, IsUnionText};

use omega_answers::{Refused, read_two};
use omega_canon::canonical;
use omega_hoa_automaton::{Automaton, Refusal};
use omega_lang_union::union;
use std::alloc::Global;

/// Returns the canonical text of the union of the automaton of `input` and that of `file`, in this order.
///
/// Fails with the [Refusal::Text] or [Refusal::Automaton] of `file`, or else with that of `input`. Or else fails with
/// the refusal of the union, which is about neither text: [TaskFault::UniversalBranch] or [TaskFault::TooLarge].
pub fn join_texts(alloc: Global, file: &[u8], input: &[u8]) -> Result<Vec<u8>, Refused>
    ensures answer { IfOk result (λ output. IsJoinAnswer file.now input.now output.items) }
    ensures refused { IfErr result (IsJoinRefused file.now input.now) }
{
    let read = read_two(alloc, file, input)?;
    match union_text(alloc, &read.input, &read.file) {
        Ok(output) => Ok(output),
        Err(refusal) => Err(Refused::from(refusal)),
    }
}

/// Returns the canonical text of the union of `first` and `second`. Fails as `union` does.
fn union_text(alloc: Global, first: &Automaton, second: &Automaton) -> Result<Vec<u8>, Refusal>
    ensures text { IfOk result (λ output. IsUnionText first.now second.now output.items) }
    ensures refused { IfErr result (IsUnionRefusal first.now second.now) }
{
    match union(alloc, first, second) {
        Ok(made) => canonical(alloc, &made),
        Err(refusal) => Err(refusal),
    }
}
