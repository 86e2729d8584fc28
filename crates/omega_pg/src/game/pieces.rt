//! Pieces of a game text that can be read at once, several tokens each. `None` may come for an accepted text too.

ghost use Rattle.std.specs.Prelude.{◌+◌, ◌<◌, ◌≤◌, [], ◌∷◌, length, IfSome, IsTrue};
ghost use Rattle.omega_game_values.specs.Player.{player_number};
ghost use Rattle.omega_pg.specs.Symbols.{comma, number, semicolon};
ghost use Rattle.omega_pg.specs.private.game.reader.Pieces.{IsPiece};
ghost use Rattle.omega_text.specs.Limits.{most_number};

use omega_game_values::Player;
use omega_text::next_pg_number;

/// The numbers that begin a node, through its first successor.
#[derive(Clone, Copy)]
pub(crate) struct Head {
    pub(crate) id: u32,
    pub(crate) priority: u32,
    pub(crate) owner: Player,
    pub(crate) first: u32,
    /// The place after them.
    pub(crate) end: usize,
}

/// A further successor, after a comma.
#[derive(Clone, Copy)]
pub(crate) struct Successor {
    pub(crate) id: u32,
    /// The place after it.
    pub(crate) end: usize,
}

/// Returns the head of a node that is next from `at` on, if it is found.
#[inline(always)]
pub(crate) fn next_head(source: &[u8], at: usize) -> Option<Head>
    requires { at ≤ length source.now }
    ensures piece { IfSome result (λ head. IsPiece source.now at head.end (number head.id
        ∷ number head.priority ∷ number (player_number head.owner) ∷ number head.first ∷ [])) }
    ensures id { IfSome result (λ head. head.id ≤ most_number) }
    ensures priority { IfSome result (λ head. head.priority ≤ most_number) }
    ensures first { IfSome result (λ head. head.first ≤ most_number) }
    ensures progress { IfSome result (λ head. at < head.end) }
{
    let id = next_pg_number(source, at)?;
    let priority = next_pg_number(source, id.span.end)?;
    let owner = next_pg_number(source, priority.span.end)?;
    let first = next_pg_number(source, owner.span.end)?;
    let player = Player::of_number(owner.value)?;
    Some(Head {
        id: id.value,
        priority: priority.value,
        owner: player,
        first: first.value,
        end: first.span.end,
    })
}

/// Returns the further successor whose comma is at `at`, if it is found.
#[inline(always)]
pub(crate) fn next_successor(source: &[u8], at: usize) -> Option<Successor>
    requires { at ≤ length source.now }
    ensures piece { IfSome result
        (λ successor. IsPiece source.now at successor.end (comma ∷ number successor.id ∷ [])) }
    ensures id { IfSome result (λ successor. successor.id ≤ most_number) }
    ensures progress { IfSome result (λ successor. at < successor.end) }
{
    if at == source.len() || source[at] != b',' {
        return None;
    }
    let id = next_pg_number(source, at + 1)?;
    Some(Successor {
        id: id.value,
        end: id.span.end,
    })
}

/// Whether a semicolon is at the place `at`.
#[inline(always)]
pub(crate) fn has_semicolon(source: &[u8], at: usize) -> bool
    requires { at ≤ length source.now }
    ensures { IsTrue result → IsPiece source.now at (at + 1) (semicolon ∷ []) }
{
    at < source.len() && source[at] == b';'
}
