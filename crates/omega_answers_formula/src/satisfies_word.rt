ghost use Rattle.std.specs.Prelude.{◌≡◌, ◌⊎◌, ◌++◌, ℕ, List, [], IfErr, IfOk, IsOkUnless, OnOk};
ghost use Rattle.std.specs.List.{AllZip};
ghost use Rattle.omega_answers_formula.specs.Formula.{IsFormulaOfText};
ghost use Rattle.omega_answers_formula.specs.InTurn.{AreAnswered};
ghost use Rattle.omega_answers_formula.specs.SatisfiesWord.{AreSatisfiesWordAnswers, AreSatisfiesWordRefused};
ghost use Rattle.omega_answers_formula.specs.SatisfiesWord.{IsWordTextRefused, IsWordTextVerdict};
ghost use Rattle.omega_answers_formula.specs.SatisfiesWord.{IsWordVerdict, word_answer};
ghost use Rattle.omega_answers_inclusion.specs.Example.{word_line};
ghost use Rattle.omega_io.specs.Answer.{explained};
ghost use Rattle.omega_lang_word_text.specs.Text.{IsReadWordRefusal};
ghost use Rattle.omega_ltl_satisfaction.specs.WordRefusing.{IsWordSatisfactionRefusal};

use crate::formula_answers::FormulaAnswers;
use crate::formula_question::FormulaQuestion;
use crate::in_turn::{answers_in_turn, read_formulas};
use crate::refused_formulas::{About, RefusedFormulas};
use omega_answers::Answer;
use omega_io::{Exit, Refusal};
use omega_lang_lasso_word::{LassoWord, SymbolicWord, lasso_word_text};
use omega_lang_word_text::laws::words_are_not_refused;
use omega_lang_word_text::read_word;
use omega_ltl_formula::Formula;
use omega_ltl_satisfaction::{WordSatisfaction, word_satisfies};
use omega_text::ByteString;
use std::alloc::Global;

/// Decides for the formula of each of `formulas`, in turn, whether each word that the letters of `word` admit satisfies
/// it. Returns for each formula `yes`, or `no`, and if `explain` is set, after `no` a line `word`: each word that fits
/// it is admitted and does not satisfy the formula. If no word is admitted, as by `cycle{a & !a}`, each answer is
/// `yes`.
///
/// Fails with the refusal of the first of `formulas` that is refused, or else with the [Refusal::Text] of `word`. Or
/// else fails as `word_satisfies` of `omega_ltl_satisfaction` does for the first formula for which it does.
///
/// Each formula is read once, and `word` again for each formula, since an answer uses its word up.
pub fn satisfies_word_each(
    alloc: Global,
    formulas: &[ByteString],
    word: &[u8],
    explain: bool,
) -> Result<FormulaAnswers, RefusedFormulas>
    ensures answers { IfOk result (λ made.
        AreSatisfiesWordAnswers formulas.now word.now explain made.exit made.text.items) }
    ensures unmentioned { IfOk result (λ made. made.unmentioned.items ≡ []) }
    ensures refused { IfErr result (AreSatisfiesWordRefused formulas.now word.now explain) }
{
    match read_formulas(alloc, formulas) {
        Ok(read) => answers_for_word(alloc, read.as_slice(), word, explain),
        Err(refused) => Err(refused),
    }
}

/// Returns the answers to `formulas`, for the word of `text`. Fails as `satisfies_word_each` does after the formulas
/// are read.
fn answers_for_word(
    alloc: Global,
    formulas: &[Formula],
    text: &[u8],
    explain: bool,
) -> Result<FormulaAnswers, RefusedFormulas>
    ensures answers { IfOk result (λ made.
        AreAnswered (IsWordTextVerdict text.now explain) formulas.now made.exit made.text.items) }
    ensures unmentioned { IfOk result (λ made. made.unmentioned.items ≡ []) }
    ensures refused { (texts : List (List ℕ)) → AllZip IsFormulaOfText texts formulas.now
        → IfErr result (AreSatisfiesWordRefused texts text.now explain) }
{
    words_are_not_refused();
    if let Err(refusal) = read_word(alloc, text) {
        return Err(RefusedFormulas::of(About::Input, refusal));
    }
    answers_in_turn::<OfWord<'_>>(alloc, &OfWord { text, explain }, formulas)
}

/// Asks whether each word that a text admits satisfies a formula.
#[derive(Drop)]
struct OfWord<'a> {
    text: &'a [u8],
    /// Whether a `no` is explained.
    explain: bool,
}

impl<'a> FormulaQuestion for OfWord<'a> {
    ghost answers = { λ question. IsWordTextVerdict question.text.now question.explain };

    ghost refuses = { λ question formula refusal. IsReadWordRefusal question.text.now refusal
        ⊎ IsWordTextRefused question.text.now formula refusal };

    fn reply(&self, alloc: Global, formula: &Formula) -> Result<(Exit, Vec<u8>), Refusal> {
        text_reply(alloc, formula, self.text, self.explain)
    }
}

/// Returns the exit and the text for a formula and the word of `text`. Fails as `read_word` does, or else as
/// `word_satisfies` of `omega_ltl_satisfaction` does.
fn text_reply(
    alloc: Global,
    formula: &Formula,
    text: &[u8],
    explain: bool,
) -> Result<(Exit, Vec<u8>), Refusal>
    ensures verdict { IfOk result
        (λ made. IsWordTextVerdict text.now explain formula.now made.0 made.1.items) }
    ensures refused { IfErr result (λ refusal. IsReadWordRefusal text.now refusal
        ⊎ IsWordTextRefused text.now formula.now refusal) }
{
    match read_word(alloc, text) {
        Ok(symbolic) => word_reply(alloc, formula, symbolic, explain),
        Err(refusal) => Err(refusal),
    }
}

/// Returns the exit and the text for a formula and a word. Fails as `word_satisfies` of `omega_ltl_satisfaction` does.
fn word_reply(
    alloc: Global,
    formula: &Formula,
    word: SymbolicWord,
    explain: bool,
) -> Result<(Exit, Vec<u8>), Refusal>
    ensures verdict { IfOk result
        (λ made. IsWordVerdict formula.now word explain made.0 made.1.items) }
    ensures refused { IfErr result (IsWordSatisfactionRefusal word formula.now) }
{
    let satisfaction = word_satisfies(alloc, word, formula)?;
    let answer = word_answer(alloc, &satisfaction, explain)?;
    answer.reply(alloc)
}

/// Returns the answer that tells `satisfaction`, with words that do not satisfy the formula if `explain` is set.
fn word_answer(
    alloc: Global,
    satisfaction: &WordSatisfaction,
    explain: bool,
) -> Result<Answer, Refusal>
    ensures answer { IfOk result (λ answer. answer ≡ word_answer explain satisfaction.now) }
    ensures memory { IsOkUnless result Refusal.Memory }
{
    match satisfaction {
        WordSatisfaction::Satisfied => Ok(Answer::Yes),
        WordSatisfaction::NotSatisfied(words) => {
            let lines = word_lines(alloc, words, explain)?;
            Ok(Answer::no_with(lines))
        }
    }
}

/// Returns the line of `words` if `explain` is set, and else nothing.
fn word_lines(alloc: Global, words: &LassoWord, explain: bool) -> Result<Vec<u8>, Refusal>
    ensures lines { IfOk result (λ lines. lines.items ≡ explained explain (word_line words.now)) }
    ensures memory { IsOkUnless result Refusal.Memory }
{
    let mut out = Vec::new(alloc);
    if explain {
        let text = lasso_word_text(alloc, words)?;
        out.extend_from_slice(b"word ")?;
        out.extend_from_slice(text.as_slice())?;
        out.extend_from_slice(b"\n")?;
    }
    Ok(out)
}
