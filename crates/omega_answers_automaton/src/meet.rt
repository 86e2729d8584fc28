ghost use Rattle.std.specs.Prelude.{IfErr, IfOk};
ghost use Rattle.omega_lang_product.specs.Refusing.{IsProductRefusal};
ghost use Rattle.omega_answers_automaton.specs.Meet.{IsMeetAnswer, IsMeetRefused, IsProductText};

use omega_answers::{Refused, read_two};
use omega_canon::canonical;
use omega_hoa_automaton::{Automaton, Refusal};
use omega_lang_product::product;
use std::alloc::Global;

/// Returns the canonical text of the product of the automaton of `input` and that of `file`, in this order.
///
/// Fails with the [Refusal::Text] or [Refusal::Automaton] of `file`, or else with that of `input`. Or else fails with
/// the refusal of the product, which is about neither text: [TaskFault::UniversalBranch],
/// [TaskFault::TooManyPropositions] or [TaskFault::TooLarge].
pub fn meet_texts(alloc: Global, file: &[u8], input: &[u8]) -> Result<Vec<u8>, Refused>
    ensures answer { IfOk result (λ output. IsMeetAnswer file.now input.now output.items) }
    ensures refused { IfErr result (IsMeetRefused file.now input.now) }
{
    let read = read_two(alloc, file, input)?;
    match product_text(alloc, &read.input, &read.file) {
        Ok(output) => Ok(output),
        Err(refusal) => Err(Refused::from(refusal)),
    }
}

/// Returns the canonical text of the product of `first` and `second`. Fails as `product` does.
fn product_text(alloc: Global, first: &Automaton, second: &Automaton) -> Result<Vec<u8>, Refusal>
    ensures text { IfOk result (λ output. IsProductText first.now second.now output.items) }
    ensures refused { IfErr result (IsProductRefusal first.now second.now) }
{
    match product(alloc, first, second) {
        Ok(meeting) => canonical(alloc, &meeting),
        Err(refusal) => Err(refusal),
    }
}
