ghost use Rattle.std.specs.Prelude.{◌≡◌, ◌<◌, ◌^◌, ◌≢◌, ◌↔◌, ℕ, [], ◌∷◌, ◌++◌, true, All};
ghost use Rattle.std.specs.Prelude.{Contains, IfNone, IfSome, IsOkUnless, OnOk, length};
ghost use Rattle.omega_game_values.specs.Game.{identifier_at};
ghost use Rattle.omega_pg.specs.solution.Grammar.{line_for};
ghost use Rattle.omega_pg.specs.private.solution.reader.Lines.{IsWrongLine, Says};

use crate::solution::solution_lines::SolutionLines;
use omega_game_values::{ForwardGame, Player, Refusal, Seq, Solution, Strategy, TaskFault};
use std::alloc::Global;

/// The lines of a solution text: for each a winner and two choices, by place.
#[derive(Drop)]
pub(crate) struct ChoiceLines {
    /// Whether each line is one of a solution. If not, no further line is kept.
    pub(crate) good: bool,
    pub(crate) winners: Vec<Player>,
    pub(crate) zero: Vec<Option<u32>>,
    pub(crate) one: Vec<Option<u32>>,
}

impl ChoiceLines {
    ghost use Rattle.std.specs.Prelude.{List};
    ghost use Rattle.omega_pg.specs.solution.Grammar.{SolutionLine};
    ghost use Rattle.omega_pg.specs.private.solution.reader.Lines.{IsOutcome, KeepsLines, entry_of};
    ghost use Rattle.omega_game_values.specs.declared.player.Player.TheVariants.{One, Zero};

    /// Makes an empty list of lines.
    pub(crate) fn new(alloc: Global) -> Self
        ensures good { result.good ≡ true }
        ensures winners { result.winners.items ≡ [] }
        ensures zero { result.zero.items ≡ [] }
        ensures one { result.one.items ≡ [] }
    {
        ChoiceLines {
            good: true,
            winners: Vec::new(alloc),
            zero: Vec::new(alloc),
            one: Vec::new(alloc),
        }
    }

    /// Returns the solution of the lines after a header with the number `greatest`. Refused with
    /// [TaskFault::BadSolution] if no solution of `game` is written so.
    pub(crate) fn finish(self, game: &ForwardGame, greatest: u32) -> Result<Solution, Refusal>
        ensures judged { (lines : List SolutionLine) → KeepsLines game.now lines self
            → IsOutcome game.now (record { greatest = greatest; lines = lines }) result }
    {
        let nodes = game.len();
        if !self.good || self.winners.len() != nodes || game.id(nodes as u32 - 1) != greatest {
            return Err(Refusal::Task(TaskFault::BadSolution));
        }
        Ok(Solution {
            winners: Seq::from_vec(self.winners),
            zero: Strategy {
                choice: Seq::from_vec(self.zero),
            },
            one: Strategy {
                choice: Seq::from_vec(self.one),
            },
        })
    }

    /// Keeps `winner` and the `choice` of `owner`.
    fn keep(&mut self, winner: Player, owner: Player, choice: Option<u32>) -> Result<(), Refusal>
        ensures winners { OnOk result
            (self.new.winners.items ≡ self.old.winners.items ++ winner ∷ []) }
        ensures zero { OnOk result
            (self.new.zero.items ≡ self.old.zero.items ++ entry_of Zero owner choice ∷ []) }
        ensures one { OnOk result
            (self.new.one.items ≡ self.old.one.items ++ entry_of One owner choice ∷ []) }
        ensures good { OnOk result (self.new.good ≡ self.old.good) }
        ensures memory { IsOkUnless result Refusal.Memory }
    {
        let (zero, one) = match owner {
            Player::Zero => (choice, None),
            Player::One => (None, choice),
        };
        self.winners.push(winner)?;
        self.zero.push(zero)?;
        self.one.push(one)?;
        Ok(())
    }
}

impl SolutionLines for ChoiceLines {
    ghost use Rattle.omega_pg.specs.private.solution.reader.Lines.{KeepsLines};

    ghost keeps = { KeepsLines };

    /// Adds the line of `id`, `winner` and `successor`. It is kept if it is one of a solution and so were all before.
    fn add(
        &mut self,
        game: &ForwardGame,
        id: u32,
        winner: Player,
        successor: Option<u32>,
    ) -> Result<(), Refusal> {
        if !self.good {
            return Ok(());
        }
        let place = self.winners.len();
        match said_choice(game, place, id, winner, successor) {
            Some(choice) => self.keep(winner, game.owner(place as u32), choice),
            None => {
                self.good = false;
                Ok(())
            }
        }
    }
}

/// Returns the choice that a line of `id`, `winner` and `successor` says of the node at `place`, if a solution can say
/// it.
fn said_choice(
    game: &ForwardGame,
    place: usize,
    id: u32,
    winner: Player,
    successor: Option<u32>,
) -> Option<Option<u32>>
    ensures small { IfSome result (λ _. place < 2 ^ 32) }
    ensures said { IfSome result (Says game.now place (line_for id winner successor)) }
    ensures wrong { IfNone result (IsWrongLine game.now place (line_for id winner successor)) }
{
    if place >= game.len() || game.id(place as u32) != id {
        return None;
    }
    let own = game.owner(place as u32).is_same(winner);
    match successor {
        None => (!own).then_some(None),
        Some(chosen) if own => {
            place_with(game, game.successors(place as u32), chosen).map(Some)
        },
        Some(_) => None,
    }
}

/// Returns the first of `places` whose node has the identifier `id`.
fn place_with(game: &ForwardGame, places: &[u32], id: u32) -> Option<u32>
    requires { All (λ w. w < length game.now) places.now }
    ensures found { IfSome result (λ w. Contains places.now w × (identifier_at game.now w ≡ id)) }
    ensures none { IfNone result (All (λ w. identifier_at game.now w ≢ id) places.now) }
{
    for place in places {
        if game.id(*place) == id {
            return Some(*place);
        }
    }
    None
}
