ghost use Rattle.std.specs.Prelude.{◌≡◌, ◌≤◌, ◌↔◌, length, IfOk, OnOk, IsOkUnless, IsTrue, All};
ghost use Rattle.omega_text.specs.pg.Forms.{IsQuoted};
ghost use Rattle.omega_text.specs.Limits.{most_number};
ghost use Rattle.omega_game_values.specs.Game.{IsNameByte};
ghost use Rattle.omega_text.specs.Forms.{between_quotes};
ghost use Rattle.omega_pg.specs.private.game.reader.Automaton.{is_above};

use crate::game::stage::GameStage;
use omega_game_values::{GameBuilder, Player, Refusal};
use omega_text::{PgKind, Token, TokenReader};
use std::alloc::Global;
use std::marker::Model;

/// A reader of game texts, which contracts see as a state of the automaton over their symbols.
#[derive(Drop)]
pub(crate) struct GameReader {
    pub(crate) stage: GameStage,
    /// The number of the header, once it has ended.
    pub(crate) header: Option<u32>,
    /// The specifications. The last one is open at the stages `Listed`, `Comma` and `Named`.
    pub(crate) specs: GameBuilder,
    /// Whether an identifier is above the number of the header.
    pub(crate) header_too_small: bool,
}

impl Model for GameReader {
    ghost use Rattle.omega_pg.specs.private.game.reader.Automaton.{GameReaderState};

    ghost Value = { GameReaderState };

    ghost use Rattle.omega_pg.specs.private.game.reader.Reader.{game_reader_state};

    ghost view = { game_reader_state };
}

impl GameReader {
    ghost use Rattle.omega_game_values.specs.Game.{IsNameByte};
    ghost use Rattle.omega_pg.specs.Symbols.{comma, name, number, parity, semicolon};
    ghost use Rattle.omega_pg.specs.private.game.reader.Automaton.{IsReady, Takes, after_owner};
    ghost use Rattle.omega_pg.specs.private.game.reader.Automaton.{begun, initial, step, with_node};

    /// Makes a reader before the first token.
    pub(crate) fn new(alloc: Global) -> Self
        ensures { result ≡ initial }
    {
        GameReader {
            stage: GameStage::Start,
            header: None,
            specs: GameBuilder::new(alloc),
            header_too_small: false,
        }
    }

    /// Takes a number with this `value`, and returns false if no text goes on so.
    #[tactic(auto, using(crate::proofs::games::Changes::length_with_last))]
    fn take_number(&mut self, value: u32) -> Result<bool, Refusal>
        requires ready { IsReady self.old }
        requires number { value ≤ most_number }
        ensures takes { IfOk result (λ taken. Takes taken (step self.old (number value)) self.new) }
        ensures memory { IsOkUnless result Refusal.Memory }
    {
        match self.stage {
            GameStage::Start | GameStage::Headed | GameStage::Ended => {
                self.stage = GameStage::Identifier { id: value };
                Ok(true)
            }
            GameStage::Word => {
                self.stage = GameStage::Number { header: value };
                Ok(true)
            }
            GameStage::Identifier { id } => {
                self.stage = GameStage::Priority {
                    id,
                    priority: value,
                };
                Ok(true)
            }
            GameStage::Priority { id, priority } => Ok(self.take_owner(id, priority, value)),
            GameStage::Owner {
                id,
                priority,
                owner,
            } => {
                self.begin_node(id, priority, owner, value)?;
                Ok(true)
            }
            GameStage::Comma => {
                self.specs.add_successor(value)?;
                self.stage = GameStage::Listed;
                Ok(true)
            }
            GameStage::Number { .. } | GameStage::Listed | GameStage::Named => Ok(false),
        }
    }

    /// Takes the number of an owner after `id` and `priority`, and returns false if no player has it.
    #[tactic(auto, using(crate::proofs::games::Players::found, crate::proofs::games::Players::not_found))]
    fn take_owner(&mut self, id: u32, priority: u32, number: u32) -> bool
        requires id { id ≤ most_number }
        requires priority { priority ≤ most_number }
        ensures { Takes result (after_owner self.old id priority number) self.new }
    {
        match Player::of_number(number) {
            None => false,
            Some(owner) => {
                self.stage = GameStage::Owner {
                    id,
                    priority,
                    owner,
                };
                true
            }
        }
    }

    /// Adds a node whose first successor is `first`.
    pub(crate) fn begin_node(
        &mut self,
        id: u32,
        priority: u32,
        owner: Player,
        first: u32,
    ) -> Result<(), Refusal>
        requires id { id ≤ most_number }
        requires priority { priority ≤ most_number }
        requires first { first ≤ most_number }
        ensures begun { OnOk result (self.new ≡ with_node (begun id priority owner first) self.old) }
        ensures memory { IsOkUnless result Refusal.Memory }
    {
        self.specs.add_node(id, priority, owner, first)?;
        self.header_too_small = self.header_too_small || is_above(self.header, id);
        self.stage = GameStage::Listed;
        Ok(())
    }

    /// Takes the word `parity`, and returns false if no text goes on so.
    fn take_word(&mut self) -> bool
        ensures { Takes result (step self.old parity) self.new }
    {
        match self.stage {
            GameStage::Start => {
                self.stage = GameStage::Word;
                true
            }
            _ => false,
        }
    }

    /// Takes a semicolon, and returns false if no text goes on so.
    fn take_semicolon(&mut self) -> bool
        requires { IsReady self.old }
        ensures { Takes result (step self.old semicolon) self.new }
    {
        match self.stage {
            GameStage::Number { header } => {
                self.header = Some(header);
                self.stage = GameStage::Headed;
                true
            }
            GameStage::Listed | GameStage::Named => {
                self.stage = GameStage::Ended;
                true
            }
            _ => false,
        }
    }

    /// Takes a comma, and returns false if no text goes on so.
    fn take_comma(&mut self) -> bool
        requires { IsReady self.old }
        ensures { Takes result (step self.old comma) self.new }
    {
        match self.stage {
            GameStage::Listed => {
                self.stage = GameStage::Comma;
                true
            }
            _ => false,
        }
    }

    /// Takes a name of these `bytes`, which are without quotes, and returns false if no text goes on so.
    #[tactic(auto, using(crate::proofs::games::Changes::length_with_last))]
    fn take_name(&mut self, bytes: &[u8]) -> Result<bool, Refusal>
        requires ready { IsReady self.old }
        requires bytes { All IsNameByte bytes.now }
        ensures takes { IfOk result (λ taken. Takes taken (step self.old (name bytes.now)) self.new) }
        ensures memory { IsOkUnless result Refusal.Memory }
    {
        match self.stage {
            GameStage::Listed => {
                self.specs.set_name(bytes)?;
                self.stage = GameStage::Named;
                Ok(true)
            }
            _ => Ok(false),
        }
    }
}

impl TokenReader<PgKind> for GameReader {
    ghost use Rattle.omega_pg.specs.Symbols.{pg_symbol_of};
    ghost use Rattle.omega_pg.specs.private.reader.Symbols.{symbols_of};
    ghost use Rattle.omega_pg.specs.game.Grammar.{game_syntax};
    ghost use Rattle.omega_pg.specs.private.game.reader.Automaton.{IsReachedBy, IsReady, Takes, step};
    ghost use Rattle.omega_pg.specs.private.game.reader.Pieces.{LeadsOn};
    ghost use Rattle.omega_pg.specs.declared.game.stage.GameStage.TheVariants.{Ended};
    ghost use Rattle.omega_text.specs.Lexeme.{lexeme_of};
    ghost use Rattle.omega_text.specs.Syntax.{TokensBegin, TokensComplete};
    ghost use Rattle.omega_text.specs.pg.Forms.{Spells};

    ghost becomes = { λ _ lexemes reader. IsReachedBy (symbols_of lexemes) reader };

    ghost begins = { TokensBegin game_syntax };

    ghost completes = { TokensComplete game_syntax };

    fn take(&mut self, token: &Token<'_, PgKind>) -> Result<bool, Refusal>
        requires ready { IsReady self.old }
        requires token { Spells token.now.kind token.now.value token.now.text.now }
        ensures takes { IfOk result
            (λ taken. Takes taken (step self.old (pg_symbol_of (lexeme_of token.now))) self.new) }
        ensures memory { IsOkUnless result Refusal.Memory }
    {
        match token.kind {
            PgKind::Number => self.take_number(token.value),
            PgKind::Parity => Ok(self.take_word()),
            PgKind::ParitySol => Ok(false),
            PgKind::Semicolon => Ok(self.take_semicolon()),
            PgKind::Comma => Ok(self.take_comma()),
            PgKind::Name => self.take_name(name_between_quotes(token.text)),
        }
    }

    fn take_run(&mut self, source: &[u8], from: usize) -> Result<usize, Refusal>
        requires ready { IsReady self.old }
        requires within { from ≤ length source.now }
        ensures leads { IfOk result (λ to. LeadsOn source.now from to self.old self.new) }
        ensures memory { IsOkUnless result Refusal.Memory }
    {
        match self.stage {
            GameStage::Start | GameStage::Headed | GameStage::Ended => self.take_nodes(
                source, from,
            ),
            GameStage::Listed => self.take_successors(source, from),
            _ => Ok(from),
        }
    }

    fn is_complete(&self) -> bool
        ensures { IsTrue result ↔ (self.now.stage ≡ Ended) }
    {
        matches!(self.stage, GameStage::Ended)
    }
}

/// Whether `id` is above the number of a `header`, if there is one.
fn is_above(header: Option<u32>, id: u32) -> bool
    ensures { result ≡ is_above header id }
{
    match header {
        None => false,
        Some(greatest) => greatest < id,
    }
}

/// Returns the name between the quotes of `text`.
fn name_between_quotes(text: &[u8]) -> &[u8]
    requires { IsQuoted text.now }
    ensures name { result.now ≡ between_quotes text.now }
    ensures bytes { All IsNameByte result.now }
{
    &text[1..text.len() - 1]
}
