ghost use Rattle.std.specs.Prelude.{◌≡◌, ℕ, MatchOption, [], ◌∷◌, length};
ghost use Rattle.omega_empty.specs.private.layout.Following.{HasNoWonStart, IsWonAt};
ghost use Rattle.omega_empty.specs.private.layout.Following.{IsWonNowhere, IsWonStart};

use omega_game_values::ForwardGame;
use omega_hoa_automaton::Automaton;
use omega_text::Numbers;

/// Returns the place of the node of the first start, at the first counter, that is among the places `won`.
pub(crate) fn won_start(automaton: &Automaton, game: &ForwardGame, won: &[bool]) -> Option<u32>
    requires { length won.now ≡ length game.now }
    ensures { MatchOption result
        (HasNoWonStart automaton.now game.now won.now) (IsWonStart automaton.now game.now won.now) }
{
    for start in automaton.starts() {
        if let Some(place) = won_single(game, won, start) {
            return Some(place);
        }
    }
    None
}

/// Returns the place of the node of `start` if this is a single state and its place is among those `won`.
fn won_single(game: &ForwardGame, won: &[bool], start: &Numbers) -> Option<u32>
    requires { length won.now ≡ length game.now }
    ensures { MatchOption result
        ((state v : ℕ) → start.now ≡ state ∷ [] → ¬ IsWonAt game.now won.now state v)
        (λ v. (state : ℕ) × (start.now ≡ state ∷ []) × IsWonAt game.now won.now state v) }
{
    if start.len() != 1 {
        return None;
    }
    won_place(game, won, start.as_slice()[0])
}

/// Returns the place of the node with `identifier` if it is among the places `won`.
fn won_place(game: &ForwardGame, won: &[bool], identifier: u32) -> Option<u32>
    requires { length won.now ≡ length game.now }
    ensures { MatchOption result (IsWonNowhere game.now won.now identifier)
        (IsWonAt game.now won.now identifier) }
{
    game.keeps_limits();
    match game.place_of(identifier) {
        None => None,
        Some(place) => {
            if won[place as usize] {
                Some(place)
            } else {
                None
            }
        }
    }
}
