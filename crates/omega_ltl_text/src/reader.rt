//! A reader of formulas: an operator-precedence parser that keeps all that is pending in a list.

ghost use Rattle.std.specs.Prelude.{◌≡◌, ◌↔◌, ◌≤◌, ◌&&◌, not, [], None, Some, IfErr, IfOk, IsOkUnless};
ghost use Rattle.std.specs.Prelude.{IsSome, IsTrue};
ghost use Rattle.std.specs.Prelude.{length};
ghost use Rattle.std.specs.List.{list_any};
ghost use Rattle.std.specs.Option.{is_some};
ghost use Rattle.omega_text.specs.Forms.{between_quotes};
ghost use Rattle.omega_ltl_text.specs.private.Reader.{is_parenthesis};

use crate::kind::FormulaKind;
use crate::levels::least_left;
use crate::pending::Pending;
use crate::reducing::reduce;
use omega_ltl_formula::{BinaryOperator, Formula, FormulaBuilder};
use omega_text::{Refusal, Token, TokenReader};
use std::alloc::Global;
use std::marker::Model;

/// A reader of a formula: the nodes so far, and what is pending.
#[derive(Drop)]
pub(crate) struct FormulaReader {
    table: FormulaBuilder,
    /// What waits for an operand, the last last.
    pending: Vec<Pending>,
    /// The node that is complete, if an operand was read last.
    current: Option<usize>,
}

impl Model for FormulaReader {
    ghost use Rattle.omega_ltl_text.specs.private.Reader.{IsReading, ReaderState, reader_of};

    ghost Value = { ReaderState };

    ghost view = { λ r. reader_of r.table r.pending.items r.current };

    ghost invariant = { λ r. IsReading (reader_of r.table r.pending.items r.current) };
}

impl FormulaReader {
    ghost use Rattle.omega_text.specs.Lexeme.{lexeme_of};
    ghost use Rattle.omega_ltl_formula.specs.Building.{empty_table};
    ghost use Rattle.omega_ltl_formula.specs.Formula.{FormulaTree, formula_size};
    ghost use Rattle.omega_ltl_formula.specs.Table.{IsFormula, tree_of};
    ghost use Rattle.omega_ltl_text.specs.Symbols.{between, closing, formula_symbol_of, name};
    ghost use Rattle.omega_ltl_text.specs.private.Reader.{Goes, HasFewNodes, IsOuter, IsRefusedFormula};
    ghost use Rattle.omega_ltl_text.specs.private.Reader.{outer_symbol, reader_of, state_of};
    ghost use Rattle.omega_ltl_text.specs.private.Reading.{ended};

    /// Returns a reader that has read nothing.
    pub(crate) fn new(alloc: Global) -> Self
        ensures { result ≡ reader_of empty_table [] None }
    {
        FormulaReader {
            table: FormulaBuilder::new(alloc),
            pending: Vec::new(alloc),
            current: None,
        }
    }

    /// Returns the formula that was read, which is whole.
    ///
    /// Fails with [AutomatonFault::TooDeep] or else with [TaskFault::TooLarge] if it is past a limit.
    pub(crate) fn finish(self, alloc: Global) -> Result<Formula, Refusal>
        requires whole { IsSome (ended (state_of self)) }
        requires few { HasFewNodes self }
        ensures formula { IfOk result (λ formula. ended (state_of self) ≡ Some (tree_of formula)) }
        ensures names { IfOk result (λ formula. formula.table.names ≡ self.table.names) }
        ensures nodes { IfOk result (λ formula. length formula.table.nodes ≤ formula_size (tree_of formula)) }
        ensures within { IfOk result (λ formula. IsFormula formula) }
        ensures refused { IfErr result (λ refusal. (tree : FormulaTree)
            → ended (state_of self) ≡ Some tree
            → IsRefusedFormula tree (length self.table.names) refusal) }
    {
        let tree = self.current.unwrap();
        let mut table = self.table;
        let mut pending = self.pending;
        let root = reduce(&mut table, &mut pending, 0, tree)?;
        table.finish(alloc, root)
    }

    /// Takes `token` at the begin of an operand. Returns whether it was taken.
    fn take_wanted(&mut self, token: &Token<'_, FormulaKind>) -> Result<bool, Refusal>
        requires { self.old.current ≡ None }
        ensures goes { IfOk result
            (λ taken. Goes taken self.old (formula_symbol_of (lexeme_of token.now)) self.new) }
        ensures memory { IsOkUnless result Refusal.Memory }
    {
        match token.kind {
            FormulaKind::Constant(value) => {
                self.current = Some(self.table.constant(value)?);
                Ok(true)
            }
            FormulaKind::Name => self.take_name(token.text),
            FormulaKind::QuotedName => self.take_name(between_quotes(token.text)),
            FormulaKind::Unary(operator) => self.take_pending(Pending::Unary(operator)),
            FormulaKind::OpenParenthesis => self.take_pending(Pending::Parenthesis),
            FormulaKind::Binary(_) | FormulaKind::CloseParenthesis => Ok(false),
        }
    }

    /// Takes the name `bytes` as an operand.
    fn take_name(&mut self, bytes: &[u8]) -> Result<bool, Refusal>
        requires { self.old.current ≡ None }
        ensures goes { IfOk result (λ taken. Goes taken self.old (name bytes.now) self.new) }
        ensures memory { IsOkUnless result Refusal.Memory }
    {
        let alloc = *self.pending.allocator();
        self.current = Some(self.table.name(alloc, bytes)?);
        Ok(true)
    }

    /// Takes an open parenthesis or an operator of one operand, with which an operand begins.
    fn take_pending(&mut self, next: Pending) -> Result<bool, Refusal>
        requires wanted { self.old.current ≡ None }
        requires outer { IsOuter next }
        ensures goes { IfOk result (λ taken. Goes taken self.old (outer_symbol next) self.new) }
        ensures memory { IsOkUnless result Refusal.Memory }
    {
        self.pending.push(next)?;
        Ok(true)
    }

    /// Takes `token` after the operand `tree`. Returns whether it was taken.
    fn take_after(&mut self, token: &Token<'_, FormulaKind>, tree: usize) -> Result<bool, Refusal>
        requires { self.old.current ≡ Some tree }
        ensures goes { IfOk result
            (λ taken. Goes taken self.old (formula_symbol_of (lexeme_of token.now)) self.new) }
        ensures memory { IsOkUnless result Refusal.Memory }
    {
        match token.kind {
            FormulaKind::Binary(operator) => self.take_operator(operator, tree),
            FormulaKind::CloseParenthesis => self.close(tree),
            FormulaKind::Constant(_)
            | FormulaKind::Name
            | FormulaKind::QuotedName
            | FormulaKind::Unary(_)
            | FormulaKind::OpenParenthesis => Ok(false),
        }
    }

    /// Takes `operator` after the operand `tree`.
    fn take_operator(&mut self, operator: BinaryOperator, tree: usize) -> Result<bool, Refusal>
        requires { self.old.current ≡ Some tree }
        ensures goes { IfOk result (λ taken. Goes taken self.old (between operator) self.new) }
        ensures memory { IsOkUnless result Refusal.Memory }
    {
        let least = least_left(operator);
        let number = reduce(&mut self.table, &mut self.pending, least, tree)?;
        let left = short_number(number)?;
        self.pending.push(Pending::Binary(operator, left))?;
        self.current = None;
        Ok(true)
    }

    /// Takes a closing parenthesis after the operand `tree`, if one is open. Returns whether it was taken.
    fn close(&mut self, tree: usize) -> Result<bool, Refusal>
        requires { self.old.current ≡ Some tree }
        ensures goes { IfOk result (λ taken. Goes taken self.old closing self.new) }
        ensures memory { IsOkUnless result Refusal.Memory }
    {
        let inside = reduce(&mut self.table, &mut self.pending, 0, tree)?;
        self.current = Some(inside);
        Ok(self.pending.pop().is_some())
    }
}

/// Returns `number` in four bytes. No text is long enough for more nodes than that.
fn short_number(number: usize) -> Result<u32, Refusal>
    ensures number { IfOk result (λ short. short ≡ number) }
    ensures memory { IsOkUnless result Refusal.Memory }
{
    match u32::try_from(number) {
        Ok(short) => Ok(short),
        Err(_) => Err(Refusal::Memory),
    }
}

/// Returns the bytes of a name in quotes between its quotes.
fn between_quotes(quoted: &[u8]) -> &[u8]
    ensures { result.now ≡ between_quotes quoted.now }
{
    if quoted.len() < 2 {
        return &[];
    }
    &quoted[1..quoted.len() - 1]
}

impl TokenReader<FormulaKind> for FormulaReader {
    ghost use Rattle.omega_text.specs.Lexeme.{lexeme_of};
    ghost use Rattle.omega_text.specs.Syntax.{TokensBegin, TokensComplete};
    ghost use Rattle.omega_ltl_text.specs.Grammar.{formula_syntax};
    ghost use Rattle.omega_ltl_text.specs.Symbols.{formula_symbol_of};
    ghost use Rattle.omega_ltl_text.specs.private.Reader.{Goes, HasBecome, state_of};
    ghost use Rattle.omega_ltl_text.specs.private.Reading.{ended};

    ghost becomes = { HasBecome };

    ghost begins = { TokensBegin formula_syntax };

    ghost completes = { TokensComplete formula_syntax };

    fn take(&mut self, token: &Token<'_, FormulaKind>) -> Result<bool, Refusal>
        ensures goes { IfOk result
            (λ taken. Goes taken self.old (formula_symbol_of (lexeme_of token.now)) self.new) }
        ensures memory { IsOkUnless result Refusal.Memory }
    {
        match self.current {
            None => self.take_wanted(token),
            Some(tree) => self.take_after(token, tree),
        }
    }

    fn is_complete(&self) -> bool
        ensures { IsTrue result ↔ IsSome (ended (state_of self.now)) }
    {
        is_whole(self.current, self.pending.as_slice())
    }
}

/// Whether an operand was read last, and no parenthesis is open.
fn is_whole(current: Option<usize>, pending: &[Pending]) -> bool
    ensures { result ≡ (is_some current && not (list_any is_parenthesis pending.now)) }
{
    current.is_some() && !has_parenthesis(pending)
}

/// Whether a parenthesis is open.
fn has_parenthesis(pending: &[Pending]) -> bool
    ensures { result ≡ list_any is_parenthesis pending.now }
{
    pending.iter().any(|next| is_parenthesis(*next))
}

/// Whether it is an open parenthesis that waits.
fn is_parenthesis(next: Pending) -> bool
    ensures { result ≡ is_parenthesis next }
{
    matches!(next, Pending::Parenthesis)
}
