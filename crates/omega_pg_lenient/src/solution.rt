ghost use Rattle.std.specs.Prelude.{◌≡◌, IfErr, IfOk, IsOkUnless};
ghost use Rattle.omega_pg_lenient.specs.SolutionLines.{bare_from, bare_text, place_in_line};
ghost use Rattle.omega_pg_lenient.specs.declared.line_place.LineContext.TheVariants.{Between};
ghost use Rattle.omega_pg_lenient.specs.SolutionText.{IsLenientReadSolutionRefusal, IsLenientSolutionText};

use crate::bytes::tail;
use crate::laws::bare_texts_keep_places;
use crate::line_place::{LineContext, LinePlace};
use crate::plain::plain_text;
use omega_game_values::{ForwardGame, Refusal, Solution};
use omega_pg::read_solution;
use omega_text::{MOST_TEXT, TextFault};
use std::alloc::Global;

/// Reads the solution of `game` that a text describes, as other tools write it. Refused as `omega_pg::read_solution`
/// refuses.
///
/// Comments and a byte order mark are white space. So are `-1` where a line may have a successor, and a name at the end
/// of a line. Places are those of `text`. The cost is linear in the text and the game, and two copies of the text are
/// made.
pub fn read_lenient_solution(
    alloc: Global,
    game: &ForwardGame,
    text: &[u8],
) -> Result<Solution, Refusal>
    ensures solution { IfOk result (IsLenientSolutionText game.now text.now) }
    ensures refused { IfErr result (IsLenientReadSolutionRefusal game.now text.now) }
{
    bare_texts_keep_places();
    if text.len() > MOST_TEXT {
        return Err(Refusal::Text(TextFault::TooLong));
    }
    let bare = bare_text(alloc, text)?;
    read_solution(alloc, game, bare.as_slice())
}

/// Returns the bare text of a solution text: its plain text with spaces for what is passed over in lines. It has a byte
/// for each of `source`. `read_lenient_solution` reads it in place of `source`. The cost is linear.
pub fn bare_text(alloc: Global, source: &[u8]) -> Result<Vec<u8>, Refusal>
    ensures text { IfOk result (λ text. text.items ≡ bare_text source.now) }
    ensures memory { IsOkUnless result Refusal.Memory }
{
    let plain = plain_text(alloc, source)?;
    bare_of(alloc, plain.as_slice())
}

/// Returns the bare text of the text whose plain text this is.
fn bare_of(alloc: Global, plain: &[u8]) -> Result<Vec<u8>, Refusal>
    ensures text { IfOk result (λ text. text.items ≡ bare_from (place_in_line Between 0) plain.now) }
    ensures memory { IsOkUnless result Refusal.Memory }
{
    let mut text = Vec::with_capacity(alloc, plain.len())?;
    let mut place = LinePlace {
        context: LineContext::Between,
        numbers: 0,
    };
    let mut at = 0;
    while at < plain.len() {
        let byte = plain[at];
        let next = place.after(byte, tail(plain, at + 1));
        text.push(place.shown_byte(next, byte))?;
        place = next;
        at += 1;
    }
    Ok(text)
}
