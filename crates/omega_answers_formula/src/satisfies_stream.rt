ghost use Rattle.std.specs.Prelude.{◌≡◌, ◌++◌, ℕ, List, [], codes, IfErr, IfOk, IsOkUnless};
ghost use Rattle.std.specs.List.{AllZip};
ghost use Rattle.omega_hoa.specs.Stream.{IsStreamText};
ghost use Rattle.omega_hoa.specs.declared.item.Item.{Item};
ghost use Rattle.omega_answers_formula.specs.Formula.{IsFormulaOfText};
ghost use Rattle.omega_answers_formula.specs.InTurn.{AreAnswered, IsAskingRefused};
ghost use Rattle.omega_answers_formula.specs.SatisfiesStream.{AnswersFormula, AreItemsAnswered};
ghost use Rattle.omega_answers_formula.specs.SatisfiesStream.{AreItemsRefused, AreSatisfiesStreamAnswers};
ghost use Rattle.omega_answers_formula.specs.SatisfiesStream.{AreSatisfiesStreamRefused, RefusesFormula};

use crate::formula_answers::FormulaAnswers;
use crate::formula_question::FormulaQuestion;
use crate::in_turn::{answers_in_turn, later_exit, read_formulas};
use crate::refused_formulas::{About, RefusedFormulas};
use crate::satisfies::satisfaction_reply;
use crate::stream_answers::StreamAnswers;
use omega_answers_stream::count_automata;
use omega_hoa::{Item, read_stream};
use omega_io::{Exit, Refusal};
use omega_ltl_formula::Formula;
use omega_text::ByteString;
use std::alloc::Global;

/// Decides for each automaton of the stream of `text`, in turn, and for the formula of each of `formulas`, in turn,
/// what `satisfies_each` decides. For an aborted segment each formula is answered by the line `aborted`. If there is no
/// segment, nothing is answered.
///
/// Fails with the refusal of the first of `formulas` that is refused, or else with the [Refusal::Text] or
/// [Refusal::Automaton] of the stream. Or else fails as `satisfies` of `omega_ltl_satisfaction` does for the first
/// automaton for which it does with one of the formulas, and for the first of these. Each text is read once, and all
/// automata are held in memory.
pub fn satisfies_stream_each(
    alloc: Global,
    formulas: &[ByteString],
    text: &[u8],
    explain: bool,
) -> Result<StreamAnswers, RefusedFormulas>
    ensures answers { IfOk result (λ made. AreSatisfiesStreamAnswers formulas.now text.now explain
        made.answers.exit made.answers.text.items made.automata) }
    ensures unmentioned { IfOk result (λ made. made.answers.unmentioned.items ≡ []) }
    ensures refused { IfErr result (AreSatisfiesStreamRefused formulas.now text.now explain) }
{
    match read_formulas(alloc, formulas) {
        Ok(read) => answers_for_stream(alloc, read.as_slice(), text, explain),
        Err(refused) => Err(refused),
    }
}

/// Returns the answers to `formulas`, for the stream of `text`. Fails as `satisfies_stream_each` does after the
/// formulas are read.
fn answers_for_stream(
    alloc: Global,
    formulas: &[Formula],
    text: &[u8],
    explain: bool,
) -> Result<StreamAnswers, RefusedFormulas>
    ensures answers { IfOk result (λ made. (items : List Item) × IsStreamText text.now items
        × AreItemsAnswered explain formulas.now items made.answers.exit made.answers.text.items
        made.automata) }
    ensures unmentioned { IfOk result (λ made. made.answers.unmentioned.items ≡ []) }
    ensures refused { (texts : List (List ℕ)) → AllZip IsFormulaOfText texts formulas.now
        → IfErr result (AreSatisfiesStreamRefused texts text.now explain) }
{
    match read_stream(alloc, text) {
        Ok(items) => answers_for_items(alloc, formulas, items.as_slice(), explain),
        Err(refusal) => Err(RefusedFormulas::of(About::Input, refusal)),
    }
}

/// Returns the answers to `formulas`, for each of `items` in turn. Fails with the refusal of the first formula of the
/// first item for which one is refused.
fn answers_for_items(
    alloc: Global,
    formulas: &[Formula],
    items: &[Item],
    explain: bool,
) -> Result<StreamAnswers, RefusedFormulas>
    ensures answered { IfOk result (λ made. AreItemsAnswered explain formulas.now items.now
        made.answers.exit made.answers.text.items made.automata) }
    ensures unmentioned { IfOk result (λ made. made.answers.unmentioned.items ≡ []) }
    ensures refused { IfErr result (AreItemsRefused explain formulas.now items.now) }
{
    let mut exit = Exit::Done;
    let mut text = Vec::new(alloc);
    for item in items {
        match append_answers(alloc, formulas, item, explain, &mut text) {
            Ok(own) => exit = later_exit(exit, own),
            Err(refused) => return Err(refused),
        }
    }
    let answers = FormulaAnswers {
        exit,
        text,
        unmentioned: Vec::new(alloc),
    };
    let automata = count_automata(items);
    Ok(StreamAnswers { answers, automata })
}

/// Appends the answers to `formulas` for `item`, and returns how the program ends after these alone. Fails with the
/// refusal of the first formula that is refused.
fn append_answers(
    alloc: Global,
    formulas: &[Formula],
    item: &Item,
    explain: bool,
    out: &mut Vec<u8>,
) -> Result<Exit, RefusedFormulas>
    ensures answers { IfOk result (λ exit. (text : List ℕ)
        × (out.new.items ≡ out.old.items ++ text)
        × AreAnswered (AnswersFormula explain item.now) formulas.now exit text) }
    ensures refused { IfErr result (IsAskingRefused (AnswersFormula explain item.now)
        (RefusesFormula item.now) formulas.now) }
{
    let question = OfItem { item, explain };
    match answers_in_turn::<OfItem<'_>>(alloc, &question, formulas) {
        Ok(answers) => match out.extend_from_slice(answers.text.as_slice()) {
            Ok(()) => Ok(answers.exit),
            Err(_) => Err(RefusedFormulas::of_nothing(Refusal::Memory)),
        },
        Err(refused) => Err(refused),
    }
}

/// Asks whether each word that the automaton of an item accepts satisfies a formula.
#[derive(Drop)]
struct OfItem<'a> {
    item: &'a Item,
    /// Whether a `no` is explained.
    explain: bool,
}

impl<'a> FormulaQuestion for OfItem<'a> {
    ghost answers = { λ question. AnswersFormula question.explain question.item.now };

    ghost refuses = { λ question. RefusesFormula question.item.now };

    fn reply(&self, alloc: Global, formula: &Formula) -> Result<(Exit, Vec<u8>), Refusal> {
        match self.item {
            Item::Automaton(automaton) => {
                satisfaction_reply(alloc, formula, automaton, self.explain)
            }
            Item::Aborted => Ok((Exit::Done, aborted_line(alloc)?)),
        }
    }
}

/// Returns the line `aborted`.
fn aborted_line(alloc: Global) -> Result<Vec<u8>, Refusal>
    ensures line { IfOk result (λ line. line.items ≡ codes "aborted\n") }
    ensures memory { IsOkUnless result Refusal.Memory }
{
    let mut line = Vec::new(alloc);
    line.extend_from_slice(b"aborted\n")?;
    Ok(line)
}
