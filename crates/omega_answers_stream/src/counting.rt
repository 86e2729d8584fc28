//! How many automata a stream has.

ghost use Rattle.std.specs.Prelude.{◌≡◌, ◌+◌, ◌-◌, ◌^◌, ◌<◌, ◌∷◌, [], false, IfOk, IfErr};
ghost use Rattle.omega_io.specs.Failures.{failures_of};
ghost use Rattle.omega_io.specs.Reading.{ReadsWhole};
ghost use Rattle.omega_answers_stream.specs.Counting.{HasAutomata, automata_in, is_automaton};
ghost use Rattle.omega_answers_stream.specs.Refusing.{RefusesStream};

use crate::item_question::ItemQuestion;
use crate::stream_input::ask_each;
use omega_hoa::Item;
use omega_io::Input;
use omega_text::Refusal;
use std::alloc::Global;

/// Returns the number of automata among the items of a stream. An aborted segment is none.
pub fn count_automata(items: &[Item]) -> usize
    ensures { result ≡ automata_in items.now }
{
    let mut count = 0;
    for item in items {
        count = count_with(count, item);
    }
    count
}

/// Returns the number of automata with `item`, if there are `count` without it.
pub(crate) fn count_with(count: usize, item: &Item) -> usize
    ensures { count + 1 < 2 ^ 64 → result ≡ count + automata_in (item.now ∷ []) }
{
    if is_automaton(item) {
        count.saturating_add(1)
    } else {
        count
    }
}

/// Whether an item of a stream is an automaton.
fn is_automaton(item: &Item) -> bool
    ensures { result ≡ is_automaton item.now }
{
    matches!(item, Item::Automaton(_))
}

/// Returns the number of automata of the stream that `input` gives. Fails with the refusal of the stream's text, with
/// [Refusal::Memory], or with [Refusal::Io] if a read failed.
///
/// The input is read as [ask_each] reads it.
pub(crate) fn count_stream<R: Input>(alloc: Global, input: &mut R) -> Result<usize, Refusal>
    requires { R.failed input.old < 2 ^ 64 - 1 }
    ensures counted { IfOk result (λ count. ReadsWhole (R.remaining input.old)
        (R.remaining input.new) (λ text. HasAutomata text count)) }
    ensures refused { IfErr result (RefusesStream (R.remaining input.old) (R.remaining input.new)) }
    ensures failures { R.failed input.new ≡ R.failed input.old + failures_of result }
{
    let asked = ask_each::<Nothing, R>(alloc, input, &Nothing)?;
    Ok(asked.answers.automata)
}

/// Asks nothing of an item, and is answered by no text.
#[derive(Drop)]
struct Nothing;

impl ItemQuestion for Nothing {
    ghost answers = { λ _ _ _ answer. (answer.text ≡ []) × (answer.no ≡ false) };

    ghost refuses = { λ _ _ _. ⊥ };

    fn append(
        &self,
        _alloc: Global,
        _number: usize,
        _item: &Item,
        _out: &mut Vec<u8>,
    ) -> Result<bool, Refusal> {
        Ok(false)
    }
}
