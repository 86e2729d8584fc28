ghost use Rattle.std.specs.Prelude.{◌≡◌, ℕ, List, [], ◌∷◌, IfErr, IfOk, IsOkUnless};
ghost use Rattle.std.specs.List.{AllZip};
ghost use Rattle.omega_hoa.specs.Alone.{IsAutomatonText};
ghost use Rattle.omega_hoa_automaton.specs.Automaton.{Description};
ghost use Rattle.omega_ltl_satisfaction.specs.Refusing.{IsSatisfactionRefusal};
ghost use Rattle.omega_answers_formula.specs.Formula.{IsFormulaOfText};
ghost use Rattle.omega_answers_formula.specs.InTurn.{AreAnswered, IsAskingRefused};
ghost use Rattle.omega_answers_formula.specs.Satisfies.{AreSatisfiesAnswers, AreSatisfiesRefused};
ghost use Rattle.omega_answers_formula.specs.Unmentioned.{AreUnmentioned, unmentioned_in};
ghost use Rattle.omega_answers_formula.specs.Satisfies.{IsSatisfactionVerdict, IsSatisfiesAnswer};
ghost use Rattle.omega_answers_formula.specs.Satisfies.{IsSatisfiesRefused, satisfaction_answer};

use crate::formula_answers::FormulaAnswers;
use crate::formula_question::FormulaQuestion;
use crate::in_turn::{answers_in_turn, read_formulas};
use crate::refused_formulas::{About, RefusedFormulas};
use omega_answers::Answer;
use omega_answers_inclusion::counterexample_lines;
use omega_hoa::read_one;
use omega_hoa_automaton::Automaton;
use omega_io::{Exit, Refusal, Refused};
use omega_ltl_formula::Formula;
use omega_ltl_satisfaction::{Satisfaction, satisfies, unmentioned_names};
use omega_text::ByteString;
use std::alloc::{AllocError, Global};

/// Decides for the formula of each of `formulas`, in turn, whether each word that the automaton of `text` accepts
/// satisfies it. A name of a formula is the proposition of that name, and one that the automaton does not have is free.
/// Returns for each formula `yes`, or `no`, and if `explain` is set, after `no` an accepting lasso of the automaton, as
/// `empty` writes it, and its word: each word that fits it is accepted along the lasso and does not satisfy the
/// formula.
///
/// If `names` is set, returns too the names of each formula that no proposition of the automaton has.
///
/// Fails with the refusal of the first of `formulas` that is refused, or else with the [Refusal::Text] or
/// [Refusal::Automaton] of `text`. Or else fails as `satisfies` of `omega_ltl_satisfaction` does for the first formula
/// for which it does. Each text is read once.
pub fn satisfies_each(
    alloc: Global,
    formulas: &[ByteString],
    text: &[u8],
    explain: bool,
    names: bool,
) -> Result<FormulaAnswers, RefusedFormulas>
    ensures answers { IfOk result (λ made.
        AreSatisfiesAnswers formulas.now text.now explain made.exit made.text.items) }
    ensures unmentioned { IfOk result
        (λ made. AreUnmentioned names formulas.now text.now made.unmentioned.items) }
    ensures refused { IfErr result (AreSatisfiesRefused formulas.now text.now explain) }
{
    match read_formulas(alloc, formulas) {
        Ok(read) => answers_for_text(alloc, read.as_slice(), text, explain, names),
        Err(refused) => Err(refused),
    }
}

/// Returns the answers to `formulas`, for the automaton of `text`. Fails as `satisfies_each` does after the formulas
/// are read.
fn answers_for_text(
    alloc: Global,
    formulas: &[Formula],
    text: &[u8],
    explain: bool,
    names: bool,
) -> Result<FormulaAnswers, RefusedFormulas>
    ensures answers { IfOk result (λ made. (a : Description) × IsAutomatonText text.now a
        × AreAnswered (λ formula. IsSatisfactionVerdict formula a explain) formulas.now
        made.exit made.text.items
        × (made.unmentioned.items ≡ unmentioned_in names formulas.now a)) }
    ensures refused { (texts : List (List ℕ)) → AllZip IsFormulaOfText texts formulas.now
        → IfErr result (AreSatisfiesRefused texts text.now explain) }
{
    match read_one(alloc, text) {
        Ok(automaton) => answers_for_automaton(alloc, formulas, &automaton, explain, names),
        Err(refusal) => Err(RefusedFormulas::of(About::Input, refusal)),
    }
}

/// Returns the answers to `formulas` for `automaton`. Fails as `satisfies_each` does after the texts are read.
fn answers_for_automaton(
    alloc: Global,
    formulas: &[Formula],
    automaton: &Automaton,
    explain: bool,
    names: bool,
) -> Result<FormulaAnswers, RefusedFormulas>
    ensures answered { IfOk result (λ made.
        AreAnswered (λ formula. IsSatisfactionVerdict formula automaton.now explain) formulas.now
        made.exit made.text.items) }
    ensures unmentioned { IfOk result
        (λ made. made.unmentioned.items ≡ unmentioned_in names formulas.now automaton.now) }
    ensures refused { IfErr result (IsAskingRefused
        (λ formula. IsSatisfactionVerdict formula automaton.now explain)
        (IsSatisfactionRefusal automaton.now) formulas.now) }
{
    let question = OfAutomaton { automaton, explain };
    match answers_in_turn::<OfAutomaton<'_>>(alloc, &question, formulas) {
        Ok(answers) => match unmentioned_in(alloc, names, formulas, automaton) {
            Ok(unmentioned) => Ok(FormulaAnswers {
                exit: answers.exit,
                text: answers.text,
                unmentioned,
            }),
            Err(_) => Err(RefusedFormulas::of_nothing(Refusal::Memory)),
        },
        Err(refused) => Err(refused),
    }
}

/// If `names` is set, returns the names of each of `formulas` that no proposition of `automaton` has, and else none.
pub(crate) fn unmentioned_in(
    alloc: Global,
    names: bool,
    formulas: &[Formula],
    automaton: &Automaton,
) -> Result<Vec<ByteString>, Refusal>
    ensures names { IfOk result
        (λ found. found.items ≡ unmentioned_in names formulas.now automaton.now) }
    ensures memory { IsOkUnless result Refusal.Memory }
{
    let mut found = Vec::new(alloc);
    if names {
        for formula in formulas {
            let mut own = unmentioned_names(alloc, formula, automaton)?;
            found.append(&mut own)?;
        }
    }
    Ok(found)
}

/// Decides the same of one formula. Returns `yes` with [Exit::Done], else `no` with [Exit::No].
///
/// `formula` is the text that a refusal calls the file, and `text` the one that it calls the input. The refusals of
/// `satisfies` of `omega_ltl_satisfaction` are about neither.
pub fn satisfies_texts(
    alloc: Global,
    formula: &[u8],
    text: &[u8],
    explain: bool,
) -> Result<(Exit, Vec<u8>), Refused>
    ensures answer { IfOk result
        (λ made. IsSatisfiesAnswer formula.now text.now explain made.0 made.1.items) }
    ensures refused { IfErr result (IsSatisfiesRefused formula.now text.now) }
{
    let Ok(formulas) = alone(alloc, formula) else {
        return Err(Refused::from(Refusal::Memory));
    };
    match satisfies_each(alloc, formulas.as_slice(), text, explain, false) {
        Ok(made) => Ok((made.exit, made.text)),
        Err(refused) => Err(refused.unnumbered()),
    }
}

/// Returns the list of one text.
fn alone(alloc: Global, text: &[u8]) -> Result<Vec<ByteString>, AllocError>
    ensures { IfOk result (λ texts. texts.items ≡ text.now ∷ []) }
{
    let mut texts = Vec::new(alloc);
    texts.push(ByteString::from_slice(alloc, text)?)?;
    Ok(texts)
}

/// Asks whether each word that an automaton accepts satisfies a formula.
#[derive(Drop)]
struct OfAutomaton<'a> {
    automaton: &'a Automaton,
    /// Whether a `no` is explained.
    explain: bool,
}

impl<'a> FormulaQuestion for OfAutomaton<'a> {
    ghost answers = { λ question formula.
        IsSatisfactionVerdict formula question.automaton.now question.explain };

    ghost refuses = { λ question formula. IsSatisfactionRefusal question.automaton.now formula };

    fn reply(&self, alloc: Global, formula: &Formula) -> Result<(Exit, Vec<u8>), Refusal> {
        satisfaction_reply(alloc, formula, self.automaton, self.explain)
    }
}

/// Returns the exit and the text for a formula and an automaton. Fails as `satisfies` of `omega_ltl_satisfaction` does.
pub(crate) fn satisfaction_reply(
    alloc: Global,
    formula: &Formula,
    automaton: &Automaton,
    explain: bool,
) -> Result<(Exit, Vec<u8>), Refusal>
    ensures verdict { IfOk result
        (λ made. IsSatisfactionVerdict formula.now automaton.now explain made.0 made.1.items) }
    ensures refused { IfErr result (IsSatisfactionRefusal automaton.now formula.now) }
{
    let satisfaction = satisfies(alloc, automaton, formula)?;
    let answer = satisfaction_answer(alloc, &satisfaction, explain)?;
    answer.reply(alloc)
}

/// Returns the answer that tells `satisfaction`, with its counterexample if `explain` is set.
fn satisfaction_answer(
    alloc: Global,
    satisfaction: &Satisfaction,
    explain: bool,
) -> Result<Answer, Refusal>
    ensures answer { IfOk result
        (λ answer. answer ≡ satisfaction_answer explain satisfaction.now) }
    ensures memory { IsOkUnless result Refusal.Memory }
{
    match satisfaction {
        Satisfaction::Satisfied => Ok(Answer::Yes),
        Satisfaction::NotSatisfied(example) => {
            let lines = counterexample_lines(alloc, &[], example, explain)?;
            Ok(Answer::no_with(lines))
        }
    }
}
