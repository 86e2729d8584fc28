//! What is read of a game text to find what is at fault in it.

ghost use Rattle.std.specs.Prelude.{◌≡◌, true, IfOk, IsOkUnless, OnOk};
ghost use Rattle.omega_pg_diagnostics.specs.private.WrittenGame.{after_number, nothing, step};
ghost use Rattle.omega_pg.specs.Symbols.{pg_symbol_of};
ghost use Rattle.omega_text.specs.Lexeme.{lexeme_of};

use omega_text::{PgKind, Refusal, Token, TokenReader};
use std::alloc::Global;
use std::marker::Model;

/// Which number of a game text is next, with the identifier of its node.
#[derive(Clone, Copy)]
pub(crate) enum NextGameNumber {
    /// The number of the header.
    Header,
    /// The identifier of a node.
    Identifier,
    Priority { node: u32 },
    Owner { node: u32 },
    /// A successor, or the end of the node.
    Successor { node: u32 },
}

/// The numbers of a game text that may be at fault, in the order of the text.
#[derive(Drop)]
pub(crate) struct WrittenGame {
    next: NextGameNumber,
    /// The number of the header, if there is one.
    header: Option<u32>,
    /// The identifiers of the nodes.
    ids: Vec<u32>,
    /// Each successor after the identifier of the node that lists it.
    listed: Vec<(u32, u32)>,
}

impl Model for WrittenGame {
    ghost use Rattle.omega_pg_diagnostics.specs.private.WrittenGame.{Written};

    ghost Value = { Written };

    ghost view = { λ g. record {
      next = g.next;
      header = g.header;
      ids = g.ids.items;
      listed = g.listed.items;
    } };
}

impl WrittenGame {
    /// Returns the number of the header, if there is one.
    pub(crate) fn header(&self) -> Option<u32>
        ensures { result ≡ self.now.header }
    {
        self.header
    }

    /// Returns the identifiers of the nodes, in the order of the text.
    pub(crate) fn ids(&self) -> &[u32]
        ensures { result.now ≡ self.now.ids }
    {
        &self.ids
    }

    /// Returns each successor after the identifier of the node that lists it, in the order of the text.
    pub(crate) fn listed_successors(&self) -> &[(u32, u32)]
        ensures { result.now ≡ self.now.listed }
    {
        &self.listed
    }

    /// Returns what was read before the first token.
    pub(crate) fn new(alloc: Global) -> Self
        ensures { result ≡ nothing }
    {
        WrittenGame {
            next: NextGameNumber::Identifier,
            header: None,
            ids: Vec::new(alloc),
            listed: Vec::new(alloc),
        }
    }

    /// Takes one more token.
    fn take_token(&mut self, token: &Token<'_, PgKind>) -> Result<(), Refusal>
        ensures taken { OnOk result (self.new ≡ step self.old (pg_symbol_of (lexeme_of token.now))) }
        ensures memory { IsOkUnless result Refusal.Memory }
    {
        match token.kind {
            PgKind::Number => self.take_number(token.value),
            PgKind::Parity => {
                self.next = NextGameNumber::Header;
                Ok(())
            }
            PgKind::Semicolon => {
                self.next = NextGameNumber::Identifier;
                Ok(())
            }
            PgKind::ParitySol | PgKind::Comma | PgKind::Name => Ok(()),
        }
    }

    /// Takes one more number.
    fn take_number(&mut self, number: u32) -> Result<(), Refusal>
        ensures taken { OnOk result (self.new ≡ after_number self.old.next self.old number) }
        ensures memory { IsOkUnless result Refusal.Memory }
    {
        match self.next {
            NextGameNumber::Header => self.header = Some(number),
            NextGameNumber::Identifier => {
                self.ids.push(number)?;
                self.next = NextGameNumber::Priority { node: number };
            }
            NextGameNumber::Priority { node } => self.next = NextGameNumber::Owner { node },
            NextGameNumber::Owner { node } => self.next = NextGameNumber::Successor { node },
            NextGameNumber::Successor { node } => self.listed.push((node, number))?,
        }
        Ok(())
    }
}

impl TokenReader<PgKind> for WrittenGame {
    ghost use Rattle.std.specs.Prelude.{map};
    ghost use Rattle.omega_pg_diagnostics.specs.private.AnyText.{any_syntax};
    ghost use Rattle.omega_pg_diagnostics.specs.private.WrittenGame.{run, step};
    ghost use Rattle.omega_pg.specs.Symbols.{pg_symbol_of};
    ghost use Rattle.omega_text.specs.Lexeme.{lexeme_of};
    ghost use Rattle.omega_text.specs.Syntax.{TokensBegin, TokensComplete};

    ghost becomes = { λ old lexemes new. new ≡ run old (map pg_symbol_of lexemes) };

    ghost begins = { TokensBegin any_syntax };

    ghost completes = { TokensComplete any_syntax };

    fn take(&mut self, token: &Token<'_, PgKind>) -> Result<bool, Refusal>
        ensures stepped { OnOk result (self.new ≡ step self.old (pg_symbol_of (lexeme_of token.now))) }
        ensures taken { IfOk result (λ taken. taken ≡ true) }
        ensures memory { IsOkUnless result Refusal.Memory }
    {
        self.take_token(token)?;
        Ok(true)
    }

    fn is_complete(&self) -> bool
        ensures { result ≡ true }
    {
        true
    }
}
