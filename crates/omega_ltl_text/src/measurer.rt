//! A reader that measures a formula and keeps no part of it.

ghost use Rattle.std.specs.Prelude.{◌≡◌, ◌≤◌, ◌+◌, ◌&&◌, ℕ, List, not, [], None, Some, IfErr, IfOk};
ghost use Rattle.std.specs.Prelude.{IsOkUnless, OnOk};
ghost use Rattle.std.specs.List.{list_any};
ghost use Rattle.std.specs.Option.{is_some};
ghost use Rattle.omega_text.specs.Lexeme.{lexeme_of};
ghost use Rattle.omega_ltl_formula.specs.Formula.{FormulaTree};
ghost use Rattle.omega_ltl_text.specs.Symbols.{between, closing, formula_symbol_of, symbol};
ghost use Rattle.omega_ltl_text.specs.private.Measuring.{Measures, MovesTo, depth_step, depths_of, depths};
ghost use Rattle.omega_ltl_text.specs.private.Measuring.{is_open, symbol_size};
ghost use Rattle.omega_ltl_text.specs.private.Reader.{IsRefusedFormula};
ghost use Rattle.omega_ltl_text.specs.private.Reading.{ReadState, ended};

use crate::depths::reduce_depth;
use crate::kind::FormulaKind;
use crate::levels::least_left;
use crate::waiting::Waiting;
use omega_ltl_formula::{BinaryOperator, MOST_FORMULA_DEPTH, MOST_FORMULA_NODES};
use omega_text::{AutomatonFault, Refusal, TaskFault, Token, TokenReader};
use std::alloc::Global;

/// A reader of a formula that keeps its depth and its size alone: at most 4 bytes for each byte of its text.
#[derive(Drop)]
pub(crate) struct FormulaMeasurer {
    /// What waits for an operand, the last last.
    waiting: Vec<Waiting>,
    /// The depth of the complete operand, if an operand was read last, counted just past the limit.
    depth: Option<u16>,
    /// The number of atoms and operators, counted just past the limit.
    size: usize,
}

impl FormulaMeasurer {
    /// Returns a measurer that has read nothing.
    pub(crate) fn new(alloc: Global) -> Self
        ensures depths { depths_of result ≡ depths [] None }
        ensures size { result.size ≡ 0 }
    {
        FormulaMeasurer {
            waiting: Vec::new(alloc),
            depth: None,
            size: 0,
        }
    }

    /// Refuses the formula that was read, which is whole, if it is past the limit of depth or else past that of size.
    pub(crate) fn check_limits(self) -> Result<(), Refusal>
        ensures { IfErr result (λ refusal. (state : ReadState) (tree : FormulaTree) (names : ℕ)
            → Measures self state → ended state ≡ Some tree → IsRefusedFormula tree names refusal) }
    {
        let mut waiting = self.waiting;
        let depth = match self.depth {
            None => return Ok(()),
            Some(operand) => reduce_depth(&mut waiting, 0, operand),
        };
        if depth as usize > MOST_FORMULA_DEPTH {
            return Err(Refusal::Automaton(AutomatonFault::TooDeep));
        }
        if self.size > MOST_FORMULA_NODES {
            return Err(Refusal::Task(TaskFault::TooLarge));
        }
        Ok(())
    }

    /// Takes a token of the kind `kind` at the begin of an operand. Returns whether it was taken.
    fn take_wanted(&mut self, kind: FormulaKind) -> Result<bool, Refusal>
        requires { self.old.depth ≡ None }
        ensures goes { IfOk result (λ taken. (text : List ℕ)
            → MovesTo taken (depth_step (depths_of self.old) (symbol kind text)) (depths_of self.new)) }
        ensures size { OnOk result ((text : List ℕ)
            → self.new.size ≤ self.old.size + symbol_size (symbol kind text)) }
        ensures memory { IsOkUnless result Refusal.Memory }
    {
        match kind {
            FormulaKind::Constant(_) | FormulaKind::Name | FormulaKind::QuotedName => {
                self.depth = Some(1);
                self.size = counted(self.size);
                Ok(true)
            }
            FormulaKind::Unary(_) => {
                self.waiting.push(Waiting::Unary)?;
                self.size = counted(self.size);
                Ok(true)
            }
            FormulaKind::OpenParenthesis => {
                self.waiting.push(Waiting::Parenthesis)?;
                Ok(true)
            }
            FormulaKind::Binary(_) | FormulaKind::CloseParenthesis => Ok(false),
        }
    }

    /// Takes a token of the kind `kind` after an operand of the depth `operand`. Returns whether it was taken.
    fn take_after(&mut self, kind: FormulaKind, operand: u16) -> Result<bool, Refusal>
        requires { self.old.depth ≡ Some operand }
        ensures goes { IfOk result (λ taken. (text : List ℕ)
            → MovesTo taken (depth_step (depths_of self.old) (symbol kind text)) (depths_of self.new)) }
        ensures size { OnOk result ((text : List ℕ)
            → self.new.size ≤ self.old.size + symbol_size (symbol kind text)) }
        ensures memory { IsOkUnless result Refusal.Memory }
    {
        match kind {
            FormulaKind::Binary(operator) => self.take_operator(operator, operand),
            FormulaKind::CloseParenthesis => Ok(self.close(operand)),
            FormulaKind::Constant(_)
            | FormulaKind::Name
            | FormulaKind::QuotedName
            | FormulaKind::Unary(_)
            | FormulaKind::OpenParenthesis => Ok(false),
        }
    }

    /// Takes `operator` after an operand of the depth `operand`.
    fn take_operator(&mut self, operator: BinaryOperator, operand: u16) -> Result<bool, Refusal>
        requires { self.old.depth ≡ Some operand }
        ensures goes { IfOk result (λ taken.
            MovesTo taken (depth_step (depths_of self.old) (between operator)) (depths_of self.new)) }
        ensures size { OnOk result (self.new.size ≤ self.old.size + 1) }
        ensures memory { IsOkUnless result Refusal.Memory }
    {
        let left = reduce_depth(&mut self.waiting, least_left(operator), operand);
        self.waiting.push(Waiting::Binary(operator, left))?;
        self.depth = None;
        self.size = counted(self.size);
        Ok(true)
    }

    /// Takes a closing parenthesis after an operand of the depth `operand`, if a parenthesis is open. Returns whether
    /// it was taken.
    fn close(&mut self, operand: u16) -> bool
        requires { self.old.depth ≡ Some operand }
        ensures goes { MovesTo result (depth_step (depths_of self.old) closing) (depths_of self.new) }
        ensures size { self.new.size ≡ self.old.size }
    {
        let inside = reduce_depth(&mut self.waiting, 0, operand);
        self.depth = Some(inside);
        self.waiting.pop().is_some()
    }
}

impl TokenReader<FormulaKind> for FormulaMeasurer {
    ghost use Rattle.omega_text.specs.Syntax.{TokensBegin, TokensComplete};
    ghost use Rattle.omega_ltl_text.specs.Grammar.{formula_syntax};
    ghost use Rattle.omega_ltl_text.specs.private.Measuring.{HasMeasured};

    ghost becomes = { HasMeasured };

    ghost begins = { TokensBegin formula_syntax };

    ghost completes = { TokensComplete formula_syntax };

    fn take(&mut self, token: &Token<'_, FormulaKind>) -> Result<bool, Refusal>
        ensures goes { IfOk result (λ taken. MovesTo taken
            (depth_step (depths_of self.old) (formula_symbol_of (lexeme_of token.now)))
            (depths_of self.new)) }
        ensures size { OnOk result
            (self.new.size ≤ self.old.size + symbol_size (formula_symbol_of (lexeme_of token.now))) }
        ensures memory { IsOkUnless result Refusal.Memory }
    {
        match self.depth {
            None => self.take_wanted(token.kind),
            Some(operand) => self.take_after(token.kind, operand),
        }
    }

    fn is_complete(&self) -> bool
        ensures { result ≡ (is_some self.now.depth && not (list_any is_open self.now.waiting.items)) }
    {
        self.depth.is_some() && !has_open(self.waiting.as_slice())
    }
}

/// Whether a parenthesis is open.
fn has_open(waiting: &[Waiting]) -> bool
    ensures { result ≡ list_any is_open waiting.now }
{
    waiting.iter().any(|next| is_open(*next))
}

/// Whether it is an open parenthesis that waits.
fn is_open(next: Waiting) -> bool
    ensures { result ≡ is_open next }
{
    matches!(next, Waiting::Parenthesis)
}

/// Returns one more than `size`, counted just past the limit.
fn counted(size: usize) -> usize
    ensures { result ≤ size + 1 }
{
    if size > MOST_FORMULA_NODES {
        size
    } else {
        size + 1
    }
}
