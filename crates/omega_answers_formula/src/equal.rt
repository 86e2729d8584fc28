ghost use Rattle.std.specs.Prelude.{◌≡◌, ◌++◌, ℕ, List, IfErr, IfOk, IsOkUnless, codes};
ghost use Rattle.std.specs.List.{AllZip};
ghost use Rattle.omega_hoa.specs.Alone.{IsAutomatonText};
ghost use Rattle.omega_hoa_automaton.specs.Automaton.{Description};
ghost use Rattle.omega_io.specs.Answer.{explained};
ghost use Rattle.omega_answers_inclusion.specs.Example.{word_line};
ghost use Rattle.omega_ltl_equality.specs.Refusing.{IsFormulaEqualityRefusal};
ghost use Rattle.omega_answers_formula.specs.EqualFormula.{AreEqualAnswers, AreEqualRefused};
ghost use Rattle.omega_answers_formula.specs.EqualFormula.{IsFormulaEqualityVerdict, formula_equality_answer};
ghost use Rattle.omega_answers_formula.specs.Formula.{IsFormulaOfText};
ghost use Rattle.omega_answers_formula.specs.InTurn.{AreAnswered, IsAskingRefused};
ghost use Rattle.omega_answers_formula.specs.Unmentioned.{AreUnmentioned, unmentioned_in};

use crate::formula_answers::FormulaAnswers;
use crate::formula_question::FormulaQuestion;
use crate::in_turn::{answers_in_turn, read_formulas};
use crate::refused_formulas::{About, RefusedFormulas};
use crate::satisfies::unmentioned_in;
use omega_answers::Answer;
use omega_answers_inclusion::counterexample_lines;
use omega_hoa::read_one;
use omega_hoa_automaton::Automaton;
use omega_io::{Exit, Refusal};
use omega_lang_lasso_word::{LassoWord, lasso_word_text};
use omega_ltl_equality::{FormulaEquality, decide_formula_equality};
use omega_ltl_formula::Formula;
use omega_text::ByteString;
use std::alloc::Global;

/// Decides for the formula of each of `formulas`, in turn, whether the automaton of `text` accepts exactly the words
/// that satisfy it. A name of a formula is the proposition of that name. Returns for each formula `yes`, or `no`.
///
/// If `explain` is set, a line follows `no`. After `accepted by automaton` come an accepting lasso of the automaton, as
/// `empty` writes it, and its word: each word that fits it is accepted along the lasso and does not satisfy the
/// formula. After `accepted by formula` comes a word alone: each word that fits it satisfies the formula and is not
/// accepted.
///
/// If `names` is set, returns too the names of each formula that no proposition of the automaton has.
///
/// Fails with the refusal of the first of `formulas` that is refused, or else with the [Refusal::Text] or
/// [Refusal::Automaton] of `text`. Or else fails as `decide_formula_equality` does for the first formula for which it
/// does. Each text is read once.
pub fn equal_each(
    alloc: Global,
    formulas: &[ByteString],
    text: &[u8],
    explain: bool,
    names: bool,
) -> Result<FormulaAnswers, RefusedFormulas>
    ensures answers { IfOk result (λ made.
        AreEqualAnswers formulas.now text.now explain made.exit made.text.items) }
    ensures unmentioned { IfOk result
        (λ made. AreUnmentioned names formulas.now text.now made.unmentioned.items) }
    ensures refused { IfErr result (AreEqualRefused formulas.now text.now explain) }
{
    match read_formulas(alloc, formulas) {
        Ok(read) => answers_for_text(alloc, read.as_slice(), text, explain, names),
        Err(refused) => Err(refused),
    }
}

/// Returns the answers to `formulas`, for the automaton of `text`. Fails as [equal_each] does after the formulas are
/// read.
fn answers_for_text(
    alloc: Global,
    formulas: &[Formula],
    text: &[u8],
    explain: bool,
    names: bool,
) -> Result<FormulaAnswers, RefusedFormulas>
    ensures answers { IfOk result (λ made. (a : Description) × IsAutomatonText text.now a
        × AreAnswered (λ formula. IsFormulaEqualityVerdict formula a explain) formulas.now
        made.exit made.text.items
        × (made.unmentioned.items ≡ unmentioned_in names formulas.now a)) }
    ensures refused { (texts : List (List ℕ)) → AllZip IsFormulaOfText texts formulas.now
        → IfErr result (AreEqualRefused texts text.now explain) }
{
    match read_one(alloc, text) {
        Ok(automaton) => answers_for_automaton(alloc, formulas, &automaton, explain, names),
        Err(refusal) => Err(RefusedFormulas::of(About::Input, refusal)),
    }
}

/// Returns the answers to `formulas` for `automaton`. Fails as [equal_each] does after the texts are read.
fn answers_for_automaton(
    alloc: Global,
    formulas: &[Formula],
    automaton: &Automaton,
    explain: bool,
    names: bool,
) -> Result<FormulaAnswers, RefusedFormulas>
    ensures answered { IfOk result (λ made.
        AreAnswered (λ formula. IsFormulaEqualityVerdict formula automaton.now explain) formulas.now
        made.exit made.text.items) }
    ensures unmentioned { IfOk result
        (λ made. made.unmentioned.items ≡ unmentioned_in names formulas.now automaton.now) }
    ensures refused { IfErr result (IsAskingRefused
        (λ formula. IsFormulaEqualityVerdict formula automaton.now explain)
        (IsFormulaEqualityRefusal automaton.now) formulas.now) }
{
    let question = OfAutomaton { automaton, explain };
    match answers_in_turn::<OfAutomaton<'_>>(alloc, &question, formulas) {
        Ok(answers) => match unmentioned_in(alloc, names, formulas, automaton) {
            Ok(unmentioned) => Ok(FormulaAnswers {
                exit: answers.exit,
                text: answers.text,
                unmentioned,
            }),
            Err(_) => Err(RefusedFormulas::of_nothing(Refusal::Memory)),
        },
        Err(refused) => Err(refused),
    }
}

/// Asks whether an automaton accepts exactly the words that satisfy a formula.
#[derive(Drop)]
struct OfAutomaton<'a> {
    automaton: &'a Automaton,
    /// Whether a `no` is explained.
    explain: bool,
}

impl<'a> FormulaQuestion for OfAutomaton<'a> {
    ghost answers = { λ question formula.
        IsFormulaEqualityVerdict formula question.automaton.now question.explain };

    ghost refuses = { λ question formula. IsFormulaEqualityRefusal question.automaton.now formula };

    fn reply(&self, alloc: Global, formula: &Formula) -> Result<(Exit, Vec<u8>), Refusal> {
        formula_equality_reply(alloc, formula, self.automaton, self.explain)
    }
}

/// Returns the exit and the text for a formula and an automaton. Fails as `decide_formula_equality` does.
fn formula_equality_reply(
    alloc: Global,
    formula: &Formula,
    automaton: &Automaton,
    explain: bool,
) -> Result<(Exit, Vec<u8>), Refusal>
    ensures verdict { IfOk result
        (λ made. IsFormulaEqualityVerdict formula.now automaton.now explain made.0 made.1.items) }
    ensures refused { IfErr result (IsFormulaEqualityRefusal automaton.now formula.now) }
{
    let equality = decide_formula_equality(alloc, automaton, formula)?;
    let answer = formula_equality_answer(alloc, &equality, explain)?;
    answer.reply(alloc)
}

/// Returns the answer that tells `equality`, with words that show it if `explain` is set.
fn formula_equality_answer(
    alloc: Global,
    equality: &FormulaEquality,
    explain: bool,
) -> Result<Answer, Refusal>
    ensures answer { IfOk result (λ answer. answer ≡ formula_equality_answer explain equality.now) }
    ensures memory { IsOkUnless result Refusal.Memory }
{
    match equality {
        FormulaEquality::Equal => Ok(Answer::Yes),
        FormulaEquality::Excess(example) => {
            let lines = counterexample_lines(alloc, b"accepted by automaton\n", example, explain)?;
            Ok(Answer::no_with(lines))
        }
        FormulaEquality::Missing(words) => {
            let lines = missing_lines(alloc, words, explain)?;
            Ok(Answer::no_with(lines))
        }
    }
}

/// Returns the lines of `words`, which satisfy a formula, if `explain` is set, and else nothing.
fn missing_lines(alloc: Global, words: &LassoWord, explain: bool) -> Result<Vec<u8>, Refusal>
    ensures lines { IfOk result (λ lines. lines.items
        ≡ explained explain (codes "accepted by formula\n" ++ word_line words.now)) }
    ensures memory { IsOkUnless result Refusal.Memory }
{
    let mut out = Vec::new(alloc);
    if explain {
        let text = lasso_word_text(alloc, words)?;
        out.extend_from_slice(b"accepted by formula\n")?;
        out.extend_from_slice(b"word ")?;
        out.extend_from_slice(text.as_slice())?;
        out.extend_from_slice(b"\n")?;
    }
    Ok(out)
}
