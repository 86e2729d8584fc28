ghost use Rattle.std.specs.Prelude.{◌≡◌, ◌≤◌, IfOk, IsOkUnless, OnOk, All, [], ◌∷◌, ◌++◌};
ghost use Rattle.omega_text.specs.Forms.{between_quotes};
ghost use Rattle.omega_text.specs.Limits.{most_number};
ghost use Rattle.omega_text.specs.pg.Forms.{IsQuoted};
ghost use Rattle.omega_game_values.specs.Game.{IsNameByte};
ghost use Rattle.omega_pg_lenient.specs.DeadEnds.{losing_priority};
ghost use Rattle.omega_pg_lenient.specs.private.Automaton.{dead_end};

use crate::kind::LenientKind;
use crate::stage::LenientStage;
use omega_game_values::{GameBuilder, Player, Refusal};
use omega_text::{PgKind, Token, TokenReader};
use std::alloc::Global;
use std::marker::Model;

/// A reader of lenient texts, which contracts see as a state of the automaton over their symbols.
#[derive(Drop)]
pub(crate) struct LenientReader {
    stage: LenientStage,
    /// The specifications, where dead ends are completed. The last one is open at the stages `Listed`, `Comma` and
    /// `Named`.
    specs: GameBuilder,
}

impl Model for LenientReader {
    ghost use Rattle.omega_pg_lenient.specs.private.Automaton.{LenientState};

    ghost Value = { LenientState };

    ghost use Rattle.omega_pg_lenient.specs.private.Reader.{reader_state};

    ghost view = { reader_state };
}

impl LenientReader {
    ghost use Rattle.std.specs.Prelude.{OnOk, [], ◌∷◌};
    ghost use Rattle.omega_game_values.specs.Building.{unnamed_spec};
    ghost use Rattle.omega_pg_lenient.specs.Symbols.{comma, name, number, parity, semicolon, start};
    ghost use Rattle.omega_pg_lenient.specs.private.Automaton.{IsReady, MayEnd, Takes, after_owner, dead_end};
    ghost use Rattle.omega_pg_lenient.specs.private.Automaton.{ended_specs, initial, step, with_node};
    ghost use Rattle.omega_pg_lenient.specs.declared.stage.LenientStage.TheVariants.{Listed};

    /// Makes a reader before the first token.
    pub(crate) fn new(alloc: Global) -> Self
        ensures { result ≡ initial }
    {
        LenientReader {
            stage: LenientStage::Opening {
                headed: false,
                started: false,
            },
            specs: GameBuilder::new(alloc),
        }
    }

    /// Takes a number with this `value`, and returns false if no text goes on so.
    #[tactic(auto, using(crate::proofs::grammar::Changes::length_with_last))]
    fn take_number(&mut self, value: u32) -> Result<bool, Refusal>
        requires ready { IsReady self.old }
        requires number { value ≤ most_number }
        ensures takes { IfOk result (λ taken. Takes taken (step self.old (number value)) self.new) }
        ensures memory { IsOkUnless result Refusal.Memory }
    {
        match self.stage {
            LenientStage::Opening { .. } | LenientStage::Ended => {
                self.stage = LenientStage::Identifier { id: value };
                Ok(true)
            }
            LenientStage::HeaderWord { started } => {
                self.stage = LenientStage::HeaderNumber { started };
                Ok(true)
            }
            LenientStage::StartWord { headed } => {
                self.stage = LenientStage::StartNumber { headed };
                Ok(true)
            }
            LenientStage::Identifier { id } => {
                self.stage = LenientStage::Priority {
                    id,
                    priority: value,
                };
                Ok(true)
            }
            LenientStage::Priority { id, priority } => Ok(self.take_owner(id, priority, value)),
            LenientStage::Owner {
                id,
                priority,
                owner,
            } => {
                self.specs.add_node(id, priority, owner, value)?;
                self.stage = LenientStage::Listed;
                Ok(true)
            }
            LenientStage::Comma => {
                self.specs.add_successor(value)?;
                self.stage = LenientStage::Listed;
                Ok(true)
            }
            LenientStage::HeaderNumber { .. }
            | LenientStage::StartNumber { .. }
            | LenientStage::Listed
            | LenientStage::Named => { Ok(false) }
        }
    }

    /// Takes the number of an owner after `id` and `priority`, and returns false if no player has it.
    #[tactic(auto, using(crate::proofs::grammar::Players::found, crate::proofs::grammar::Players::not_found))]
    fn take_owner(&mut self, id: u32, priority: u32, number: u32) -> bool
        requires id { id ≤ most_number }
        requires priority { priority ≤ most_number }
        ensures { Takes result (after_owner self.old id priority number) self.new }
    {
        match Player::of_number(number) {
            None => false,
            Some(owner) => {
                self.stage = LenientStage::Owner {
                    id,
                    priority,
                    owner,
                };
                true
            }
        }
    }

    /// Takes the word `parity`, and returns false if no text goes on so.
    fn take_parity(&mut self) -> bool
        ensures { Takes result (step self.old parity) self.new }
    {
        match self.stage {
            LenientStage::Opening {
                headed: false,
                started,
            } => {
                self.stage = LenientStage::HeaderWord { started };
                true
            }
            _ => false,
        }
    }

    /// Takes the word `start`, and returns false if no text goes on so.
    fn take_start(&mut self) -> bool
        ensures { Takes result (step self.old start) self.new }
    {
        match self.stage {
            LenientStage::Opening {
                headed,
                started: false,
            } => {
                self.stage = LenientStage::StartWord { headed };
                true
            }
            _ => false,
        }
    }

    /// Takes a semicolon, and returns false if no text goes on so.
    fn take_semicolon(&mut self) -> Result<bool, Refusal>
        requires { IsReady self.old }
        ensures takes { IfOk result (λ taken. Takes taken (step self.old semicolon) self.new) }
        ensures memory { IsOkUnless result Refusal.Memory }
    {
        match self.stage {
            LenientStage::HeaderNumber { started } => {
                self.stage = LenientStage::Opening {
                    headed: true,
                    started,
                };
                Ok(true)
            }
            LenientStage::StartNumber { headed } => {
                self.stage = LenientStage::Opening {
                    headed,
                    started: true,
                };
                Ok(true)
            }
            LenientStage::Owner { id, owner, .. } => {
                add_dead_end(&mut self.specs, id, owner)?;
                self.stage = LenientStage::Ended;
                Ok(true)
            }
            LenientStage::Listed | LenientStage::Named => {
                self.stage = LenientStage::Ended;
                Ok(true)
            }
            _ => Ok(false),
        }
    }

    /// Takes a comma, and returns false if no text goes on so.
    fn take_comma(&mut self) -> bool
        requires { IsReady self.old }
        ensures { Takes result (step self.old comma) self.new }
    {
        match self.stage {
            LenientStage::Listed => {
                self.stage = LenientStage::Comma;
                true
            }
            _ => false,
        }
    }

    /// Takes a name of these `bytes`, which are without quotes, and returns false if no text goes on so.
    #[tactic(auto, using(crate::proofs::grammar::Changes::length_with_last))]
    fn take_name(&mut self, bytes: &[u8]) -> Result<bool, Refusal>
        requires ready { IsReady self.old }
        requires bytes { All IsNameByte bytes.now }
        ensures takes { IfOk result (λ taken. Takes taken (step self.old (name bytes.now)) self.new) }
        ensures memory { IsOkUnless result Refusal.Memory }
    {
        match self.stage {
            LenientStage::Owner { id, owner, .. } => {
                add_dead_end(&mut self.specs, id, owner)?;
                self.specs.set_name(bytes)?;
                self.stage = LenientStage::Named;
                Ok(true)
            }
            LenientStage::Listed => {
                self.specs.set_name(bytes)?;
                self.stage = LenientStage::Named;
                Ok(true)
            }
            _ => Ok(false),
        }
    }

    /// Returns the specifications of a text that ends here, where the last dead end may be open.
    pub(crate) fn specs_at_end(self) -> Result<GameBuilder, Refusal>
        requires { IsReady self }
        ensures specs { IfOk result (λ specs. specs ≡ ended_specs self.stage self.specs) }
        ensures memory { IsOkUnless result Refusal.Memory }
    {
        let LenientReader { stage, mut specs } = self;
        if let LenientStage::Owner { id, owner, .. } = stage {
            add_dead_end(&mut specs, id, owner)?;
        }
        Ok(specs)
    }
}

/// Adds a dead end, completed and without a name.
fn add_dead_end(specs: &mut GameBuilder, id: u32, owner: Player) -> Result<(), Refusal>
    requires id { id ≤ most_number }
    ensures added { OnOk result (specs.new ≡ specs.old ++ dead_end id owner ∷ []) }
    ensures memory { IsOkUnless result Refusal.Memory }
{
    specs.add_node(id, losing_priority(owner), owner, id)
}

/// Returns the least priority that loses for `player`.
fn losing_priority(player: Player) -> u32
    ensures { result ≡ losing_priority player }
{
    match player {
        Player::Zero => 1,
        Player::One => 0,
    }
}

impl TokenReader<LenientKind> for LenientReader {
    ghost use Rattle.std.specs.Prelude.{map, ◌↔◌, IsTrue};
    ghost use Rattle.omega_pg_lenient.specs.Symbols.{symbol_of};
    ghost use Rattle.omega_pg_lenient.specs.Grammar.{lenient_syntax};
    ghost use Rattle.omega_pg_lenient.specs.private.Automaton.{IsReachedBy, IsReady, MayEnd, Takes, step};
    ghost use Rattle.omega_pg_lenient.specs.private.Reader.{IsSpelled};
    ghost use Rattle.omega_text.specs.Lexeme.{lexeme_of};
    ghost use Rattle.omega_text.specs.Syntax.{TokensBegin, TokensComplete};

    ghost becomes = { λ _ lexemes reader. IsReachedBy (map symbol_of lexemes) reader };

    ghost begins = { TokensBegin lenient_syntax };

    ghost completes = { TokensComplete lenient_syntax };

    fn take(&mut self, token: &Token<'_, LenientKind>) -> Result<bool, Refusal>
        requires ready { IsReady self.old }
        requires token { IsSpelled token.now.kind token.now.value token.now.text.now }
        ensures takes { IfOk result
            (λ taken. Takes taken (step self.old (symbol_of (lexeme_of token.now))) self.new) }
        ensures memory { IsOkUnless result Refusal.Memory }
    {
        match token.kind {
            LenientKind::Strict(PgKind::Number) => self.take_number(token.value),
            LenientKind::Strict(PgKind::Parity) => Ok(self.take_parity()),
            LenientKind::Strict(PgKind::ParitySol) => Ok(false),
            LenientKind::Strict(PgKind::Semicolon) => self.take_semicolon(),
            LenientKind::Strict(PgKind::Comma) => Ok(self.take_comma()),
            LenientKind::Strict(PgKind::Name) => self.take_name(name_between_quotes(token.text)),
            LenientKind::Start => Ok(self.take_start()),
        }
    }

    fn is_complete(&self) -> bool
        ensures { IsTrue result ↔ MayEnd self.now.stage }
    {
        matches!(
            self.stage,
            LenientStage::Owner { .. }
                | LenientStage::Listed
                | LenientStage::Named
                | LenientStage::Ended
        )
    }
}

/// Returns the name between the quotes of `text`.
fn name_between_quotes(text: &[u8]) -> &[u8]
    requires { IsQuoted text.now }
    ensures name { result.now ≡ between_quotes text.now }
    ensures bytes { All IsNameByte result.now }
{
    &text[1..text.len() - 1]
}
