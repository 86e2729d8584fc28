ghost use Rattle.std.specs.Prelude.{IfErr, IfOk};
ghost use Rattle.omega_answers_automaton.specs.TrimmedMeet.{IsMeetTrimmedAnswer, IsMeetTrimmedRefused};
ghost use Rattle.omega_answers_automaton.specs.TrimmedMeet.{IsTrimmedProductRefusal};
ghost use Rattle.omega_answers_automaton.specs.TrimmedMeet.{IsTrimmedProductText};

use crate::trim::trim_automaton;
use omega_answers::{Refused, read_two};
use omega_hoa_automaton::{Automaton, Refusal};
use omega_lang_product::product;
use std::alloc::Global;

/// Returns the canonical text of the product of the automaton of `input` and that of `file`, in this order, without the
/// useless states of the product. Those are the states that no start reaches, or in which no accepting lasso starts.
/// The cost is that of `product` and `trim`, and linear in the texts.
///
/// Fails with the [Refusal::Text] or [Refusal::Automaton] of `file`, or else with that of `input`. Or else fails with
/// the refusal of the product, or else with that of `trim` for the product, which are about neither text:
/// [TaskFault::UniversalBranch], [TaskFault::TooManyPropositions] or [TaskFault::TooLarge].
pub fn meet_trimmed_texts(alloc: Global, file: &[u8], input: &[u8]) -> Result<Vec<u8>, Refused>
    ensures answer { IfOk result (λ output. IsMeetTrimmedAnswer file.now input.now output.items) }
    ensures refused { IfErr result (IsMeetTrimmedRefused file.now input.now) }
{
    let read = read_two(alloc, file, input)?;
    match trimmed_product_text(alloc, &read.input, &read.file) {
        Ok(output) => Ok(output),
        Err(refusal) => Err(Refused::from(refusal)),
    }
}

/// Returns the canonical text of the product of `first` and `second` without its useless states. Fails as `product`
/// does, or else as `trim` does for the product.
fn trimmed_product_text(
    alloc: Global,
    first: &Automaton,
    second: &Automaton,
) -> Result<Vec<u8>, Refusal>
    ensures text { IfOk result (λ output. IsTrimmedProductText first.now second.now output.items) }
    ensures refused { IfErr result (IsTrimmedProductRefusal first.now second.now) }
{
    match product(alloc, first, second) {
        Ok(meeting) => trim_automaton(alloc, &meeting),
        Err(refusal) => Err(refusal),
    }
}
