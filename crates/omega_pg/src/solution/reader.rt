ghost use Rattle.std.specs.Prelude.{◌≡◌, ◌↔◌, [], IfOk, IsOkUnless, IsTrue};
ghost use Rattle.omega_pg.specs.private.solution.reader.Automaton.{stage_after_number, stage_after_word};

use crate::solution::solution_lines::SolutionLines;
use crate::solution::stage::SolutionStage;
use omega_game_values::{ForwardGame, Player, Refusal};
use omega_text::{PgKind, Token, TokenReader};

/// A reader of texts of a game's solution, which keeps of their lines what `L` keeps.
#[derive(Drop)]
pub(crate) struct SolutionReader<'g, L> {
    pub(crate) game: &'g ForwardGame,
    pub(crate) stage: SolutionStage,
    /// The number of the header, once it has ended.
    pub(crate) greatest: u32,
    pub(crate) lines: L,
}

impl<'g, L: SolutionLines> SolutionReader<'g, L> {
    ghost use Rattle.omega_pg.specs.Symbols.{semicolon};
    ghost use Rattle.omega_pg.specs.private.solution.reader.Automaton.{initial};
    ghost use Rattle.omega_pg.specs.private.solution.reader.Reader.{GoesOn, Takes};
    ghost use Rattle.omega_pg.specs.private.solution.reader.Reading.{Keeps};

    /// Makes a reader before the first token of a text of a solution of `game`, with no line in `lines`.
    pub(crate) fn new(game: &'g ForwardGame, lines: L) -> Self
        requires { L.keeps game.now [] lines }
        ensures game { result.game.now ≡ game.now }
        ensures keeps { Keeps L.keeps game.now initial result.stage result.greatest result.lines }
    {
        SolutionReader {
            game,
            stage: SolutionStage::Start,
            greatest: 0,
            lines,
        }
    }

    /// Goes on to the stage `next`, and returns false without one.
    fn go_on(&mut self, next: Option<SolutionStage>) -> bool
        ensures goes { GoesOn next self.old result self.new }
        ensures game { self.new.game.now ≡ self.old.game.now }
    {
        match next {
            Some(stage) => {
                self.stage = stage;
                true
            }
            None => false,
        }
    }

    /// Takes a semicolon, and returns false if no text goes on so.
    fn take_semicolon(&mut self) -> Result<bool, Refusal>
        ensures takes { IfOk result (λ taken. Takes L.keeps semicolon self.old taken self.new) }
        ensures game { self.new.game.now ≡ self.old.game.now }
        ensures memory { IsOkUnless result Refusal.Memory }
    {
        match self.stage {
            SolutionStage::Number { greatest } => {
                self.greatest = greatest;
                self.stage = SolutionStage::Ended;
                Ok(true)
            }
            SolutionStage::Winner { id, winner } => {
                self.lines.add(self.game, id, winner, None)?;
                self.stage = SolutionStage::Ended;
                Ok(true)
            }
            SolutionStage::Chosen {
                id,
                winner,
                successor,
            } => {
                self.lines.add(self.game, id, winner, Some(successor))?;
                self.stage = SolutionStage::Ended;
                Ok(true)
            }
            _ => Ok(false),
        }
    }
}

impl<L: SolutionLines> TokenReader<PgKind> for SolutionReader<'_, L> {
    ghost use Rattle.omega_pg.specs.Symbols.{pg_symbol_of};
    ghost use Rattle.omega_pg.specs.solution.Grammar.{solution_syntax};
    ghost use Rattle.omega_pg.specs.private.solution.reader.Reader.{HasBecome, Takes};
    ghost use Rattle.omega_pg.specs.declared.solution.stage.SolutionStage.TheVariants.{Ended};
    ghost use Rattle.omega_text.specs.Lexeme.{lexeme_of};
    ghost use Rattle.omega_text.specs.Syntax.{TokensBegin, TokensComplete};

    ghost becomes = { HasBecome L.keeps };

    ghost begins = { TokensBegin solution_syntax };

    ghost completes = { TokensComplete solution_syntax };

    fn take(&mut self, token: &Token<'_, PgKind>) -> Result<bool, Refusal>
        ensures takes { IfOk result
            (λ taken. Takes L.keeps (pg_symbol_of (lexeme_of token.now)) self.old taken self.new) }
        ensures game { self.new.game.now ≡ self.old.game.now }
        ensures memory { IsOkUnless result Refusal.Memory }
    {
        match token.kind {
            PgKind::Number => Ok(self.go_on(after_number(self.stage, token.value))),
            PgKind::ParitySol => Ok(self.go_on(after_word(self.stage))),
            PgKind::Semicolon => self.take_semicolon(),
            PgKind::Parity => Ok(false),
            PgKind::Comma => Ok(false),
            PgKind::Name => Ok(false),
        }
    }

    fn is_complete(&self) -> bool
        ensures { IsTrue result ↔ (self.now.stage ≡ Ended) }
    {
        matches!(self.stage, SolutionStage::Ended)
    }
}

/// Returns the stage after a `number`, if a text goes on so.
#[tactic(auto, using(crate::proofs::games::Players::found, crate::proofs::games::Players::not_found))]
pub(crate) fn after_number(stage: SolutionStage, number: u32) -> Option<SolutionStage>
    ensures { result ≡ stage_after_number stage number }
{
    match stage {
        SolutionStage::Word => Some(SolutionStage::Number { greatest: number }),
        SolutionStage::Ended => Some(SolutionStage::Identifier { id: number }),
        SolutionStage::Identifier { id } => {
            Player::of_number(number).map(|winner| SolutionStage::Winner { id, winner })
        }
        SolutionStage::Winner { id, winner } => Some(SolutionStage::Chosen {
            id,
            winner,
            successor: number,
        }),
        SolutionStage::Start | SolutionStage::Number { .. } | SolutionStage::Chosen { .. } => None,
    }
}

/// Returns the stage after the word `paritysol`, if a text goes on so.
pub(crate) fn after_word(stage: SolutionStage) -> Option<SolutionStage>
    ensures { result ≡ stage_after_word stage }
{
    match stage {
        SolutionStage::Start => Some(SolutionStage::Word),
        _ => None,
    }
}
