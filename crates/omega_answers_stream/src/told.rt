//! A text for each item of a stream: a question that refuses no item.

ghost use Rattle.std.specs.Prelude.{◌≡◌, ◌+◌, ◌-◌, ◌^◌, ◌<◌, false, IfOk, IfErr};
ghost use Rattle.omega_text.specs.Cases.{or_io, or_memory};
ghost use Rattle.omega_hoa.specs.Stream.{IsStreamRefusal};
ghost use Rattle.omega_io.specs.Failures.{failures_of};
ghost use Rattle.omega_io.specs.Reading.{ReadsTextFrom, ReadsWholeFrom};
ghost use Rattle.omega_answers_stream.specs.Telling.{IsTelling};

use crate::answers::Answers;
use crate::asked::Asked;
use crate::item_question::ItemQuestion;
use crate::item_text::ItemText;
use crate::stream_input::ask_each;
use omega_hoa::Item;
use omega_io::Input;
use omega_text::Refusal;
use std::alloc::Global;
use std::marker::PhantomData;

/// Returns the texts of the items of the stream that `input` gives. Fails with the refusal of the stream's text, with
/// [Refusal::Memory], or with [Refusal::Io] if a read failed.
///
/// The input is read as [ask_each] reads it.
pub fn tell_stream<T: ItemText, R: Input>(alloc: Global, input: &mut R) -> Result<Vec<u8>, Refusal>
    requires { R.failed input.old < 2 ^ 64 - 1 }
    ensures reported { IfOk result (λ reported.
        ReadsWholeFrom R.Input input.old input.new (λ text. IsTelling T.text text reported.items)) }
    ensures refused { IfErr result (or_memory (or_io (λ refusal.
        ReadsTextFrom R.Input input.old input.new (λ text. IsStreamRefusal text refusal)))) }
    ensures counted { R.failed input.new ≡ R.failed input.old + failures_of result }
{
    let told = Told::<T> { of: PhantomData };
    let asked = ask_each::<Told<T>, R>(alloc, input, &told)?;
    Ok(text_of(asked))
}

/// Returns the texts of the answers.
fn text_of(asked: Asked) -> Vec<u8>
    ensures { result ≡ asked.answers.text }
{
    let Asked {
        answers: Answers {
            text,
            no: _,
            automata: _,
        },
        refused: _,
    } = asked;
    text
}

/// Asks for the text of each item. The answer is never `no`.
#[derive(Drop)]
struct Told<T> {
    of: PhantomData<T>,
}

impl<T: ItemText> ItemQuestion for Told<T> {
    ghost answers = { λ _ number item answer. (answer.text ≡ T.text number item)
        × (answer.no ≡ false) };

    ghost refuses = { λ _ _ _. ⊥ };

    fn append(
        &self,
        _alloc: Global,
        number: usize,
        item: &Item,
        out: &mut Vec<u8>,
    ) -> Result<bool, Refusal> {
        T::append(number, item, out)?;
        Ok(false)
    }
}
