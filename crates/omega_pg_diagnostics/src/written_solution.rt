//! What is read of a solution text to find what is at fault in it.

ghost use Rattle.std.specs.Prelude.{◌≡◌, true, map, IfOk, IsOkUnless, OnOk};
ghost use Rattle.omega_pg_diagnostics.specs.private.WrittenSolution.{after_number, after_semicolon};
ghost use Rattle.omega_pg_diagnostics.specs.private.WrittenSolution.{as_written, nothing};
ghost use Rattle.omega_pg_diagnostics.specs.private.WrittenSolution.{player_with, step, with_line};
ghost use Rattle.omega_pg.specs.Symbols.{pg_symbol_of};
ghost use Rattle.omega_text.specs.Lexeme.{lexeme_of};

use omega_pg::Player;
use omega_text::{PgKind, Refusal, Token, TokenReader};
use std::alloc::Global;
use std::marker::Model;

/// Which number of a solution text is next, with what was read of its line.
#[derive(Clone, Copy)]
pub(crate) enum NextSolutionNumber {
    /// The number of the header.
    Greatest,
    /// The identifier of a line.
    Identifier,
    Winner { id: u32 },
    /// The successor that the owner chooses, or the end of the line.
    Choice { id: u32, winner: Player },
    /// None: the end of the header or of a line.
    End,
}

/// What a line says of a node.
#[derive(Clone, Copy)]
pub(crate) struct WrittenLine {
    pub(crate) id: u32,
    pub(crate) winner: Player,
    /// The identifier of the successor that the owner chooses, if there is one.
    pub(crate) choice: Option<u32>,
}

/// The number of the header and the lines of a solution text, in the order of the text.
#[derive(Drop)]
pub(crate) struct WrittenSolution {
    next: NextSolutionNumber,
    greatest: u32,
    lines: Vec<WrittenLine>,
}

impl Model for WrittenSolution {
    ghost use Rattle.std.specs.Prelude.{map};
    ghost use Rattle.omega_pg_diagnostics.specs.private.WrittenSolution.{Written, as_written};

    ghost Value = { Written };

    ghost view = { λ s. record {
      next = s.next;
      greatest = s.greatest;
      lines = map as_written s.lines.items;
    } };
}

impl WrittenSolution {
    /// Returns the number of the header.
    pub(crate) fn header_number(&self) -> u32
        ensures { result ≡ self.now.greatest }
    {
        self.greatest
    }

    /// Returns the lines, in the order of the text.
    pub(crate) fn lines(&self) -> &[WrittenLine]
        ensures { map as_written result.now ≡ self.now.lines }
    {
        &self.lines
    }

    /// Returns what was read before the first token.
    pub(crate) fn new(alloc: Global) -> Self
        ensures { result ≡ nothing }
    {
        WrittenSolution {
            next: NextSolutionNumber::Greatest,
            greatest: 0,
            lines: Vec::new(alloc),
        }
    }

    /// Takes one more token.
    fn take_token(&mut self, token: &Token<'_, PgKind>) -> Result<(), Refusal>
        ensures taken { OnOk result (self.new ≡ step self.old (pg_symbol_of (lexeme_of token.now))) }
        ensures memory { IsOkUnless result Refusal.Memory }
    {
        match token.kind {
            PgKind::Number => self.take_number(token.value),
            PgKind::Semicolon => self.take_semicolon(),
            PgKind::Parity | PgKind::ParitySol | PgKind::Comma | PgKind::Name => Ok(()),
        }
    }

    /// Takes one more number.
    fn take_number(&mut self, number: u32) -> Result<(), Refusal>
        ensures taken { OnOk result (self.new ≡ after_number self.old.next self.old number) }
        ensures memory { IsOkUnless result Refusal.Memory }
    {
        match self.next {
            NextSolutionNumber::Greatest => {
                self.greatest = number;
                self.next = NextSolutionNumber::End;
            }
            NextSolutionNumber::Identifier => self.next = NextSolutionNumber::Winner { id: number },
            NextSolutionNumber::Winner { id } => {
                let winner = player_with(number);
                self.next = NextSolutionNumber::Choice { id, winner };
            }
            NextSolutionNumber::Choice { id, winner } => {
                self.add_line(id, winner, Some(number))?;
                self.next = NextSolutionNumber::End;
            }
            NextSolutionNumber::End => {}
        }
        Ok(())
    }

    /// Takes a semicolon.
    fn take_semicolon(&mut self) -> Result<(), Refusal>
        ensures taken { OnOk result (self.new ≡ after_semicolon self.old.next self.old) }
        ensures memory { IsOkUnless result Refusal.Memory }
    {
        if let NextSolutionNumber::Choice { id, winner } = self.next {
            self.add_line(id, winner, None)?;
        }
        self.next = NextSolutionNumber::Identifier;
        Ok(())
    }

    /// Adds a line.
    #[tactic(auto, using(crate::proofs::solutions::Spelled::one_line_more))]
    fn add_line(&mut self, id: u32, winner: Player, choice: Option<u32>) -> Result<(), Refusal>
        ensures added { OnOk result (self.new ≡ with_line self.old.next id winner choice self.old) }
        ensures memory { IsOkUnless result Refusal.Memory }
    {
        self.lines.push(WrittenLine { id, winner, choice })?;
        Ok(())
    }
}

impl TokenReader<PgKind> for WrittenSolution {
    ghost use Rattle.std.specs.Prelude.{map};
    ghost use Rattle.omega_pg_diagnostics.specs.private.AnyText.{any_syntax};
    ghost use Rattle.omega_pg_diagnostics.specs.private.WrittenSolution.{run, step};
    ghost use Rattle.omega_pg.specs.Symbols.{pg_symbol_of};
    ghost use Rattle.omega_text.specs.Lexeme.{lexeme_of};
    ghost use Rattle.omega_text.specs.Syntax.{TokensBegin, TokensComplete};

    ghost becomes = { λ old lexemes new. new ≡ run old (map pg_symbol_of lexemes) };

    ghost begins = { TokensBegin any_syntax };

    ghost completes = { TokensComplete any_syntax };

    fn take(&mut self, token: &Token<'_, PgKind>) -> Result<bool, Refusal>
        ensures stepped { OnOk result (self.new ≡ step self.old (pg_symbol_of (lexeme_of token.now))) }
        ensures taken { IfOk result (λ taken. taken ≡ true) }
        ensures memory { IsOkUnless result Refusal.Memory }
    {
        self.take_token(token)?;
        Ok(true)
    }

    fn is_complete(&self) -> bool
        ensures { result ≡ true }
    {
        true
    }
}

/// Returns the player with this `number`, which is 0 or 1.
fn player_with(number: u32) -> Player
    ensures { result ≡ player_with number }
{
    if number == 0 {
        Player::Zero
    } else {
        Player::One
    }
}
