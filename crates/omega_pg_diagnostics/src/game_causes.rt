//! The line that says why a game text makes no game.

ghost use Rattle.std.specs.Prelude.{◌≡◌, ◌↔◌, [], nat_eq, nat_lt, IfNone, IfOk, IfSome, IsOkUnless, IsTrue};
ghost use Rattle.std.specs.List.{IsDistinct, find};
ghost use Rattle.omega_pg_diagnostics.specs.GameCauses.{IsCauseOf, IsFirstRepeat, IsGameCause, WritesGame};
ghost use Rattle.omega_pg_diagnostics.specs.GameCauses.{above_line, first_above, first_missing, listed_pairs};
ghost use Rattle.omega_pg_diagnostics.specs.GameCauses.{specified_ids, twice_line, undefined_line};
ghost use Rattle.omega_pg_diagnostics.specs.private.WrittenGame.{Keeps};
ghost use Rattle.omega_pg.specs.game.Grammar.{RawGame, game_syntax};
ghost use Rattle.omega_text.specs.Syntax.{IsTextOf};

use crate::any_syntax::AnySyntax;
use crate::grammar::is_in_grammar;
use crate::lines::{with_number, with_two_numbers};
use crate::written_game::WrittenGame;
use indexmap::IndexSet;
use omega_pg::{GameSyntax, read_forward_game};
use omega_text::laws::{cuts_are_one, texts_have_no_fault};
use omega_text::{PgKind, Refusal, read_text};
use std::alloc::Global;

/// Returns the line that says why a game text makes no game, with its line feed. Refused with [Refusal::Memory].
///
/// The line names the first node that comes twice ([GameFault::DuplicateNode]). If there is none, it names the first
/// successor that is no node ([GameFault::UndefinedSuccessor]), and then the first node above the header's number
/// ([GameFault::HeaderTooSmall]). Without one of these faults, or if `text` is not in the grammar, there is no line and
/// the result is empty. By the law `laws::causes_are_of_faults` the line is about the fault for which the text is
/// refused. The cost is linear in the text.
pub fn game_cause(alloc: Global, text: &[u8]) -> Result<Vec<u8>, Refusal>
    ensures cause { IfOk result (λ line. IsGameCause text.now line.items) }
    ensures memory { IsOkUnless result Refusal.Memory }
{
    if !is_written(alloc, text)? {
        return Ok(Vec::new(alloc));
    }
    let game = read_written(alloc, text)?;
    cause_of(alloc, game.header(), game.ids(), game.listed_successors())
}

/// Whether a text is in the grammar of games, whatever it specifies.
#[tactic(auto, using(crate::proofs::games::Texts::game_tells, crate::proofs::games::Texts::refusal_tells))]
fn is_written(alloc: Global, text: &[u8]) -> Result<bool, Refusal>
    ensures written { IfOk result (λ written. IsTrue written ↔ WritesGame text.now) }
    ensures memory { IsOkUnless result Refusal.Memory }
{
    texts_have_no_fault::<GameSyntax>();
    let Err(refusal) = read_forward_game(alloc, text) else {
        return Ok(true);
    };
    is_in_grammar(refusal)
}

/// Reads what may be at fault in a game text.
fn read_written(alloc: Global, text: &[u8]) -> Result<WrittenGame, Refusal>
    requires { WritesGame text.now }
    ensures kept { IfOk result
        (λ game. (raw : RawGame) → IsTextOf game_syntax text.now raw → Keeps raw game) }
    ensures memory { IsOkUnless result Refusal.Memory }
{
    cuts_are_one::<PgKind>();
    texts_have_no_fault::<AnySyntax>();
    read_text::<PgKind, WrittenGame>(WrittenGame::new(alloc), text)
}

/// Returns the line for what is written, or no bytes if nothing is at fault.
fn cause_of(
    alloc: Global,
    header: Option<u32>,
    ids: &[u32],
    listed: &[(u32, u32)],
) -> Result<Vec<u8>, Refusal>
    ensures cause { IfOk result
        (λ line. (raw : RawGame) → header ≡ raw.header → ids.now ≡ specified_ids raw.specs
        → listed.now ≡ listed_pairs raw.specs → IsCauseOf raw line.items) }
    ensures memory { IsOkUnless result Refusal.Memory }
{
    let mut nodes = IndexSet::new(alloc);
    if let Some(id) = first_repeat(ids, &mut nodes)? {
        return twice_line(alloc, id);
    }
    if let Some((id, successor)) = first_missing(&nodes, listed) {
        return undefined_line(alloc, id, successor);
    }
    if let Some((number, id)) = first_above(header, ids) {
        return above_line(alloc, number, id);
    }
    Ok(Vec::new(alloc))
}

/// Returns the first identifier that came before. If there is none, `nodes` then has them all.
fn first_repeat(ids: &[u32], nodes: &mut IndexSet<u32>) -> Result<Option<u32>, Refusal>
    requires { nodes.old.keys ≡ [] }
    ensures repeat { IfOk result (λ found. IfSome found (IsFirstRepeat ids.now)) }
    ensures nodes { IfOk result (λ found. IfNone found (nodes.new.keys ≡ ids.now)) }
    ensures different { IfOk result (λ found. IfNone found (IsDistinct nat_eq ids.now)) }
    ensures memory { IsOkUnless result Refusal.Memory }
{
    for id in ids {
        if !nodes.insert(*id)? {
            return Ok(Some(*id));
        }
    }
    Ok(None)
}

/// Returns the first of `pairs` whose successor is none of `nodes`.
fn first_missing(nodes: &IndexSet<u32>, pairs: &[(u32, u32)]) -> Option<(u32, u32)>
    ensures { result ≡ first_missing nodes.now.keys pairs.now }
{
    for pair in pairs {
        if !nodes.contains(&pair.1) {
            return Some(*pair);
        }
    }
    None
}

/// Returns the number of the `header` and the first identifier above it.
fn first_above(header: Option<u32>, ids: &[u32]) -> Option<(u32, u32)>
    ensures { result ≡ first_above header ids.now }
{
    let number = header?;
    let id = first_greater(number, ids)?;
    Some((number, id))
}

/// Returns the first of `ids` that is greater than `number`.
fn first_greater(number: u32, ids: &[u32]) -> Option<u32>
    ensures { result ≡ find (nat_lt number) ids.now }
{
    for id in ids {
        if number < *id {
            return Some(*id);
        }
    }
    None
}

/// Returns the line about a node that comes twice.
pub(crate) fn twice_line(alloc: Global, id: u32) -> Result<Vec<u8>, Refusal>
    ensures line { IfOk result (λ line. line.items ≡ twice_line id) }
    ensures memory { IsOkUnless result Refusal.Memory }
{
    with_number(alloc, b"omega: node ", id, b" comes twice\n")
}

/// Returns the line about a `successor` of a node that is no node.
fn undefined_line(alloc: Global, id: u32, successor: u32) -> Result<Vec<u8>, Refusal>
    ensures line { IfOk result (λ line. line.items ≡ undefined_line id successor) }
    ensures memory { IsOkUnless result Refusal.Memory }
{
    with_two_numbers(
        alloc,
        b"omega: node ",
        id,
        b": successor ",
        successor,
        b" is no node\n",
    )
}

/// Returns the line about a header's `number` and a node above it.
fn above_line(alloc: Global, number: u32, id: u32) -> Result<Vec<u8>, Refusal>
    ensures line { IfOk result (λ line. line.items ≡ above_line number id) }
    ensures memory { IsOkUnless result Refusal.Memory }
{
    with_two_numbers(
        alloc,
        b"omega: the header has ",
        number,
        b", and there is a node ",
        id,
        b"\n",
    )
}
