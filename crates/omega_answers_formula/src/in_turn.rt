//! Formulas that are read, and asked the same question, one after the other.
ghost use Rattle.std.specs.Prelude.{◌≡◌, ◌++◌, ◌∷◌, [], ℕ, List, IfErr, IfOk, OnOk};
ghost use Rattle.std.specs.List.{AllZip};
ghost use Rattle.omega_text.specs.Cases.{or_memory};
ghost use Rattle.omega_ltl_formula.specs.Table.{NumberedFormula};
ghost use Rattle.omega_ltl_text.specs.Text.{IsFormulaTextRefusal};
ghost use Rattle.omega_answers_formula.specs.Formula.{IsFormulaOfText};
ghost use Rattle.omega_answers_formula.specs.InTurn.{AreAnswered, IsAskingRefused, IsReadingRefused};
ghost use Rattle.omega_answers_formula.specs.InTurn.{later_exit};

use crate::formula_answers::FormulaAnswers;
use crate::formula_question::FormulaQuestion;
use crate::refused_formulas::{About, RefusedFormulas};
use omega_io::Exit;
use omega_ltl_formula::Formula;
use omega_ltl_text::read_formula;
use omega_text::{ByteString, Refusal};
use std::alloc::Global;

/// Reads the formulas of `texts`. Fails with the refusal of the first text that is refused. Takes linear time.
pub(crate) fn read_formulas(
    alloc: Global,
    texts: &[ByteString],
) -> Result<Vec<Formula>, RefusedFormulas>
    ensures read { IfOk result (λ read. AllZip IsFormulaOfText texts.now read.items) }
    ensures refused { IfErr result (IsReadingRefused texts.now) }
{
    let mut read = Vec::new(alloc);
    for (place, text) in texts.iter().enumerate() {
        if let Err(refusal) = read_more(alloc, text, &mut read) {
            return Err(RefusedFormulas::of(About::Formula(place + 1), refusal));
        }
    }
    Ok(read)
}

/// Reads the formula of `text` after those that are read.
fn read_more(alloc: Global, text: &ByteString, read: &mut Vec<Formula>) -> Result<(), Refusal>
    ensures read { OnOk result ((formula : NumberedFormula)
        × (read.new.items ≡ read.old.items ++ formula ∷ []) × IsFormulaOfText text.now formula) }
    ensures refused { IfErr result (or_memory (IsFormulaTextRefusal text.now)) }
{
    let formula = read_formula(alloc, text.as_slice())?;
    read.push(formula)?;
    Ok(())
}

/// Returns what `formulas` are answered to `question`, one after the other. Fails with the refusal of the first that is
/// refused.
pub(crate) fn answers_in_turn<Q: FormulaQuestion>(
    alloc: Global,
    question: &Q,
    formulas: &[Formula],
) -> Result<FormulaAnswers, RefusedFormulas>
    ensures answered { IfOk result (λ made.
        AreAnswered (Q.answers question.now) formulas.now made.exit made.text.items) }
    ensures unmentioned { IfOk result (λ made. made.unmentioned.items ≡ []) }
    ensures refused { IfErr result
        (IsAskingRefused (Q.answers question.now) (Q.refuses question.now) formulas.now) }
{
    let mut exit = Exit::Done;
    let mut text = Vec::new(alloc);
    for (place, formula) in formulas.iter().enumerate() {
        match append_answer::<Q>(alloc, question, formula, &mut text) {
            Ok(own) => exit = later_exit(exit, own),
            Err(refusal) => {
                return Err(RefusedFormulas::of(About::Question(place + 1), refusal));
            }
        }
    }
    Ok(FormulaAnswers {
        exit,
        text,
        unmentioned: Vec::new(alloc),
    })
}

/// Appends the answer to `formula`, and returns how the program ends after it alone.
fn append_answer<Q: FormulaQuestion>(
    alloc: Global,
    question: &Q,
    formula: &Formula,
    out: &mut Vec<u8>,
) -> Result<Exit, Refusal>
    ensures answer { IfOk result (λ exit. (text : List ℕ) × (out.new.items ≡ out.old.items ++ text)
        × Q.answers question.now formula.now exit text) }
    ensures refused { IfErr result (or_memory (Q.refuses question.now formula.now)) }
{
    match question.reply(alloc, formula) {
        Ok((exit, text)) => {
            out.extend_from_slice(text.as_slice())?;
            Ok(exit)
        }
        Err(refusal) => Err(refusal),
    }
}

/// Returns how the program ends after answers after which it would end as `before`, and one after which it ends as
/// `own`.
pub(crate) fn later_exit(before: Exit, own: Exit) -> Exit
    ensures { result ≡ later_exit before own }
{
    match own {
        Exit::Done => before,
        Exit::No => Exit::No,
    }
}
