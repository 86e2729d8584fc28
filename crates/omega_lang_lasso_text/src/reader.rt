ghost use Rattle.std.specs.Prelude.{◌≡◌, ◌↔◌, IfOk, IsOkUnless, IsTrue};

use crate::kind::LassoKind;
use crate::lasso::LassoText;
use crate::stage::LassoStage;
use omega_text::{Refusal, Seq, Token, TokenReader};
use std::alloc::Global;
use std::marker::Model;

/// A reader of lasso texts: what it has read so far.
#[derive(Drop)]
pub(crate) struct LassoReader {
    pub(crate) stage: LassoStage,
    pub(crate) stem: Vec<u32>,
    pub(crate) cycle: Vec<u32>,
}

impl Model for LassoReader {
    ghost use Rattle.omega_lang_lasso_text.specs.private.Reading.{LassoState, kept};

    ghost Value = { LassoState };

    ghost view = { λ reader. kept reader.stage reader.stem.items reader.cycle.items };
}

impl LassoReader {
    ghost use Rattle.omega_lang_lasso_text.specs.private.Reading.{Goes, cycle_at, initial};
    ghost use Rattle.omega_lang_lasso_text.specs.private.Reading.{number_at, stem_at};

    /// Returns a reader that has read nothing.
    pub(crate) fn new(alloc: Global) -> Self
        ensures { result ≡ initial }
    {
        LassoReader {
            stage: LassoStage::Start,
            stem: Vec::new(alloc),
            cycle: Vec::new(alloc),
        }
    }

    /// Returns the lasso that was read.
    pub(crate) fn into_lasso(self) -> LassoText
        ensures stem { result.stem ≡ self.before }
        ensures cycle { result.cycle ≡ self.around }
    {
        LassoText {
            stem: Seq::from_vec(self.stem),
            cycle: Seq::from_vec(self.cycle),
        }
    }

    /// Takes `number` if a word came before. Returns whether it was taken.
    fn take_number(&mut self, number: u32) -> Result<bool, Refusal>
        ensures goes { IfOk result
            (λ taken. Goes taken (number_at self.old.stage number self.old) self.new) }
        ensures memory { IsOkUnless result Refusal.Memory }
    {
        match self.stage {
            LassoStage::Start => Ok(false),
            LassoStage::Stem => {
                self.stem.push(number)?;
                Ok(true)
            }
            LassoStage::Cycle => {
                self.cycle.push(number)?;
                Ok(true)
            }
        }
    }

    /// Takes the word `stem` if it is the first. Returns whether it was taken.
    fn take_stem(&mut self) -> bool
        ensures { Goes result (stem_at self.old.stage self.old) self.new }
    {
        match self.stage {
            LassoStage::Start => {
                self.stage = LassoStage::Stem;
                true
            }
            LassoStage::Stem | LassoStage::Cycle => false,
        }
    }

    /// Takes the word `cycle` if the word before is `stem`. Returns whether it was taken.
    fn take_cycle(&mut self) -> bool
        ensures { Goes result (cycle_at self.old.stage self.old) self.new }
    {
        match self.stage {
            LassoStage::Stem => {
                self.stage = LassoStage::Cycle;
                true
            }
            LassoStage::Start | LassoStage::Cycle => false,
        }
    }
}

impl TokenReader<LassoKind> for LassoReader {
    ghost use Rattle.omega_lang_lasso_text.specs.Symbols.{lasso_symbol_of};
    ghost use Rattle.omega_lang_lasso_text.specs.Grammar.{lasso_syntax};
    ghost use Rattle.omega_lang_lasso_text.specs.private.Reader.{HasBecome};
    ghost use Rattle.omega_lang_lasso_text.specs.private.Reading.{Goes, IsEnded, step};
    ghost use Rattle.omega_text.specs.Lexeme.{lexeme_of};
    ghost use Rattle.omega_text.specs.Syntax.{TokensBegin, TokensComplete};

    ghost becomes = { HasBecome };

    ghost begins = { TokensBegin lasso_syntax };

    ghost completes = { TokensComplete lasso_syntax };

    fn take(&mut self, token: &Token<'_, LassoKind>) -> Result<bool, Refusal>
        ensures goes { IfOk result (λ taken.
            Goes taken (step self.old (lasso_symbol_of (lexeme_of token.now))) self.new) }
        ensures memory { IsOkUnless result Refusal.Memory }
    {
        match token.kind {
            LassoKind::Number => self.take_number(token.value),
            LassoKind::Stem => Ok(self.take_stem()),
            LassoKind::Cycle => Ok(self.take_cycle()),
        }
    }

    fn is_complete(&self) -> bool
        ensures { IsTrue result ↔ IsEnded self.now }
    {
        matches!(self.stage, LassoStage::Cycle) && !self.cycle.is_empty()
    }
}
