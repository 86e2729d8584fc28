ghost use Rattle.std.specs.Prelude.{◌≡◌, ◌+◌, ◌^◌, ◌<◌, [], ◌∷◌, length, IfErr, IfOk, IsOkUnless, OnOk};
ghost use Rattle.omega_answers_stream.specs.private.steps.Following.{AsksMore, EndsAsked};
ghost use Rattle.omega_answers_stream.specs.private.steps.Following.{EndsRefused, FollowsAsking};
ghost use Rattle.omega_answers_stream.specs.private.steps.Following.{FollowsPiece, FollowsSome};
ghost use Rattle.omega_answers_stream.specs.private.steps.Question.{AreAskedBy};

use crate::answers::Answers;
use crate::asked::Asked;
use crate::counting::count_with;
use crate::item_question::ItemQuestion;
use omega_hoa::{Item, Stream};
use omega_text::{HoaKind, Refusal, TokenKind};
use std::alloc::Global;

/// What the items of a stream were answered so far, as its bytes come.
#[derive(Drop)]
pub(crate) struct Asking {
    pub(crate) stream: Stream,
    /// The number of items so far.
    pub(crate) count: usize,
    pub(crate) asked: Asked,
    /// A buffer for the items of a piece. Between pieces it holds those of the last one.
    items: Vec<Item>,
}

/// Begins before the first byte.
pub(crate) fn begin<Q: ItemQuestion>(alloc: Global, _question: &Q) -> Asking
    ensures { FollowsAsking (AreAskedBy Q.ItemQuestion _question.now) [] result }
{
    Asking {
        stream: Stream::new(alloc),
        count: 0,
        asked: Asked {
            answers: Answers {
                text: Vec::new(alloc),
                no: false,
                automata: 0,
            },
            refused: None,
        },
        items: Vec::new(alloc),
    }
}

/// Takes the next `piece`, and asks the items of the segments that end in it. If a piece is refused, no item of it or
/// of those after it is asked, and the stream keeps its refusal.
pub(crate) fn take_piece<Q: ItemQuestion>(
    alloc: Global,
    question: &Q,
    asking: &mut Asking,
    piece: &[u8],
) -> Result<(), Refusal>
    requires { FollowsSome (AreAskedBy Q.ItemQuestion question.now) asking.old }
    ensures follows { OnOk result
        (FollowsPiece (AreAskedBy Q.ItemQuestion question.now) piece.now asking.old asking.new) }
    ensures memory { IsOkUnless result Refusal.Memory }
{
    HoaKind::goes_on_one_way();
    asking.items.clear();
    match asking.stream.feed(piece, &mut asking.items) {
        Ok(()) => {
            ask_items::<Q>(
                alloc,
                question,
                asking.count,
                asking.items.as_slice(),
                &mut asking.asked,
            )?;
            asking.count += asking.items.len();
            Ok(())
        }
        Err(refusal) => match refusal {
            Refusal::Memory => Err(Refusal::Memory),
            _ => Ok(()),
        },
    }
}

/// Asks `items`, the first of which has the number `first`.
fn ask_items<Q: ItemQuestion>(
    alloc: Global,
    question: &Q,
    first: usize,
    items: &[Item],
    asked: &mut Asked,
) -> Result<(), Refusal>
    requires { first + length items.now < 2 ^ 64 }
    ensures asked { OnOk result
        (AsksMore (AreAskedBy Q.ItemQuestion question.now) first items.now asked.old asked.new) }
    ensures memory { IsOkUnless result Refusal.Memory }
{
    for (place, item) in items.iter().enumerate() {
        ask_item::<Q>(alloc, question, first + place, item, asked)?;
    }
    Ok(())
}

/// Asks the item with this number, unless one before it is refused.
fn ask_item<Q: ItemQuestion>(
    alloc: Global,
    question: &Q,
    number: usize,
    item: &Item,
    asked: &mut Asked,
) -> Result<(), Refusal>
    requires { number + 1 < 2 ^ 64 }
    ensures asked { OnOk result
        (AsksMore (AreAskedBy Q.ItemQuestion question.now) number (item.now ∷ []) asked.old asked.new) }
    ensures memory { IsOkUnless result Refusal.Memory }
{
    if asked.refused.is_some() {
        return Ok(());
    }
    match question.append(alloc, number, item, &mut asked.answers.text) {
        Ok(no) => {
            asked.answers.no |= no;
            asked.answers.automata = count_with(asked.answers.automata, item);
            Ok(())
        }
        Err(refusal) => match refusal {
            Refusal::Memory => Err(Refusal::Memory),
            _ => {
                asked.refused = Some(refusal);
                Ok(())
            }
        },
    }
}

/// Ends the stream, and returns what its items were answered. Fails with a [Refusal::Text] or [Refusal::Automaton], the
/// refusal of the stream's text.
pub(crate) fn end<Q: ItemQuestion>(_question: &Q, asking: Asking) -> Result<Asked, Refusal>
    ensures asked { IfOk result (EndsAsked (AreAskedBy Q.ItemQuestion _question.now) asking) }
    ensures refused { IfErr result (EndsRefused (AreAskedBy Q.ItemQuestion _question.now) asking) }
{
    let Asking {
        stream,
        count: _,
        asked,
        items: _,
    } = asking;
    stream.finish()?;
    Ok(asked)
}
