//! The automaton of a symbolic word: a state for each letter, in a row that leads back to the first letter of the
//! cycle.

ghost use Rattle.std.specs.Prelude.{◌≡◌, ◌∷◌, [], ◌++◌, ◌+◌, ◌<◌, ◌≤◌, ◌↔◌, false};
ghost use Rattle.std.specs.Prelude.{length, IfErr, IfOk, IsOkUnless, IsTrue};
ghost use Rattle.omega_hoa_automaton.specs.Limits.{most_propositions};
ghost use Rattle.omega_hoa_automaton.specs.Faults.{BreaksLimit};
ghost use Rattle.omega_hoa_edges.specs.Fitting.{IsLarge};
ghost use Rattle.omega_hoa_edges.specs.Limits.{most_states};
ghost use Rattle.omega_hoa_syntax.specs.declared.raw_item.RawItem.TheVariants as item;
ghost use Rattle.omega_lang_inclusion.specs.Written.{HasNoAutomaton, IsWordAutomaton, IsOversized};
ghost use Rattle.omega_lang_inclusion.specs.Written.{letter_states, written_items, written_word};
ghost use Rattle.omega_hoa_automaton.specs.Written.{raw_automaton};
ghost use Rattle.omega_hoa_automaton.specs.Meaning.{Means};

use crate::states::letter_states;
use omega_hoa_acceptance::RawAcc;
use omega_hoa_automaton::{Automaton, MOST_PROPOSITIONS, RawAutomaton, automaton_of};
use omega_hoa_edges::MOST_STATES;
use omega_hoa_label::RawLabel;
use omega_hoa_syntax::{RawItem, RawState};
use omega_lang_lasso_word::SymbolicWord;
use omega_text::{ByteString, Numbers, Refusal, Seq, TaskFault};
use std::alloc::Global;

/// Returns the automaton that accepts exactly the words that `word` admits, by `laws::word_automata_accept_admitted`.
/// It has a state for each letter, with one edge that has this letter as its label, and every run is accepted.
///
/// Fails with [TaskFault::TooLarge] if `word` has over `MOST_STATES` letters or over `MOST_PROPOSITIONS` names, or if
/// the letters break another limit of labels. Those are a depth of 256 and 65,536 atoms and operators for each letter,
/// and 16,777,216 of these for all letters together. Linear in the word.
pub fn word_automaton(alloc: Global, word: SymbolicWord) -> Result<Automaton, Refusal>
    ensures automaton { IfOk result (IsWordAutomaton word) }
    ensures refused { IfErr result (IsOversized word) }
{
    if is_oversized(&word) {
        Err(Refusal::Task(TaskFault::TooLarge))
    } else {
        of_fitting(alloc, word)
    }
}

/// Returns the automaton of a word with neither too many letters nor too many names. Fails as [word_automaton] does.
fn of_fitting(alloc: Global, word: SymbolicWord) -> Result<Automaton, Refusal>
    requires letters { length word.stem + length word.others < most_states }
    requires names { length word.names ≤ most_propositions }
    ensures automaton { IfOk result (IsWordAutomaton word) }
    ensures refused { IfErr result (IsOversized word) }
{
    match written_word(alloc, word) {
        Ok(raw) => automaton_of_raw(alloc, raw),
        Err(refusal) => Err(refusal),
    }
}

/// Whether a word has too many letters or too many names.
fn is_oversized(word: &SymbolicWord) -> bool
    ensures oversized { IsTrue result → HasNoAutomaton word.now }
    ensures letters { result ≡ false → length word.now.stem + length word.now.others < most_states }
    ensures names { result ≡ false → length word.now.names ≤ most_propositions }
{
    is_too_long(word) || MOST_PROPOSITIONS < word.names.len()
}

/// Whether a word has more than `MOST_STATES` letters.
fn is_too_long(word: &SymbolicWord) -> bool
    ensures { IsTrue result ↔ (most_states ≤ length word.now.stem + length word.now.others) }
{
    let room = MOST_STATES.saturating_sub(word.stem.len());
    room <= word.others.len()
}

/// Returns the automaton of `word` as a text writes it.
fn written_word(alloc: Global, word: SymbolicWord) -> Result<RawAutomaton, Refusal>
    requires letters { length word.stem + length word.others < most_states }
    requires names { length word.names ≤ most_propositions }
    ensures written { IfOk result (λ raw. raw ≡ written_word word) }
    ensures memory { IsOkUnless result Refusal.Memory }
{
    let SymbolicWord {
        names,
        stem,
        first,
        others,
    } = word;
    let stem = stem.into_vec();
    let others = others.into_vec();
    let count = (stem.len() + others.len() + 1) as u32;
    match written_items(alloc, count, names) {
        Ok(items) => with_items(alloc, items, stem, first, others),
        Err(refusal) => Err(refusal),
    }
}

/// Returns the written automaton with this header, of the letters of a stem, and of the first letter and the others of
/// a cycle.
fn with_items(
    alloc: Global,
    items: Vec<RawItem>,
    stem: Vec<RawLabel>,
    first: RawLabel,
    others: Vec<RawLabel>,
) -> Result<RawAutomaton, Refusal>
    requires { length stem.items + length others.items < most_states }
    ensures written { IfOk result
        (λ raw. raw ≡ raw_automaton items.items (letter_states (length stem.items + length others.items + 1)
        (length stem.items) 0 (stem.items ++ first ∷ others.items))) }
    ensures memory { IsOkUnless result Refusal.Memory }
{
    match letter_states(alloc, stem, first, others) {
        Ok(states) => raw_automaton_of(alloc, items, states),
        Err(refusal) => Err(refusal),
    }
}

/// Returns the written automaton of version 1 with this header and these states.
fn raw_automaton_of(
    alloc: Global,
    items: Vec<RawItem>,
    states: Vec<RawState>,
) -> Result<RawAutomaton, Refusal>
    ensures written { IfOk result (λ raw. raw ≡ raw_automaton items.items states.items) }
    ensures memory { IsOkUnless result Refusal.Memory }
{
    let version = ByteString::from_slice(alloc, b"v1")?;
    Ok(RawAutomaton {
        version,
        items: Seq::from_vec(items),
        states: Seq::from_vec(states),
    })
}

/// Returns the header of an automaton with `count` states and propositions of these `names`, which accepts each run.
fn written_items(alloc: Global, count: u32, names: Seq<ByteString>) -> Result<Vec<RawItem>, Refusal>
    requires { length names ≤ most_propositions }
    ensures items { IfOk result (λ items. items.items ≡ written_items count names) }
    ensures memory { IsOkUnless result Refusal.Memory }
{
    match RawAcc::constant(alloc, true) {
        Ok(formula) => items_with(alloc, count, names, formula),
        Err(refusal) => Err(refusal),
    }
}

/// Returns the header with `count` states and propositions of these `names`, which accepts as `formula` says.
fn items_with(
    alloc: Global,
    count: u32,
    names: Seq<ByteString>,
    formula: RawAcc,
) -> Result<Vec<RawItem>, Refusal>
    requires { length names ≤ most_propositions }
    ensures items { IfOk result (λ items. items.items ≡ item.States count ∷ item.Start (0 ∷ [])
        ∷ item.Propositions (length names) names ∷ item.Acceptance 0 formula ∷ []) }
    ensures memory { IsOkUnless result Refusal.Memory }
{
    match first_items(alloc, count) {
        Ok(items) => with_names(items, names, formula),
        Err(refusal) => Err(refusal),
    }
}

/// Returns the items before the names: `count` states, and the start.
fn first_items(alloc: Global, count: u32) -> Result<Vec<RawItem>, Refusal>
    ensures items { IfOk result (λ items. items.items ≡ item.States count ∷ item.Start (0 ∷ []) ∷ []) }
    ensures memory { IsOkUnless result Refusal.Memory }
{
    let mut items = Vec::new(alloc);
    items.push(RawItem::States(count))?;
    items.push(RawItem::Start(Numbers::one(0)))?;
    Ok(items)
}

/// Returns `items`, and after them the propositions of these `names` and the acceptance that `formula` says.
fn with_names(
    items: Vec<RawItem>,
    names: Seq<ByteString>,
    formula: RawAcc,
) -> Result<Vec<RawItem>, Refusal>
    requires { length names ≤ most_propositions }
    ensures items { IfOk result (λ all. all.items ≡ items.items
        ++ item.Propositions (length names) names ∷ item.Acceptance 0 formula ∷ []) }
    ensures memory { IsOkUnless result Refusal.Memory }
{
    let named = RawItem::Propositions {
        count: names.len() as u32,
        names,
    };
    match with_item(items, named) {
        Ok(all) => with_item(all, RawItem::Acceptance { count: 0, formula }),
        Err(refusal) => Err(refusal),
    }
}

/// Returns `items`, and after them `more`.
fn with_item(items: Vec<RawItem>, more: RawItem) -> Result<Vec<RawItem>, Refusal>
    ensures items { IfOk result (λ all. all.items ≡ items.items ++ more ∷ []) }
    ensures memory { IsOkUnless result Refusal.Memory }
{
    let mut all = items;
    all.push(more)?;
    Ok(all)
}

/// Returns the meaning of `raw`. Fails with [TaskFault::TooLarge] if `raw` breaks a limit of automata.
fn automaton_of_raw(alloc: Global, raw: RawAutomaton) -> Result<Automaton, Refusal>
    ensures means { IfOk result (Means raw) }
    ensures refused { IfErr result (IsLarge (BreaksLimit raw)) }
{
    match automaton_of(alloc, raw) {
        Ok(automaton) => Ok(automaton),
        Err(Refusal::Automaton(_fault)) => Err(Refusal::Task(TaskFault::TooLarge)),
        Err(refusal) => Err(refusal),
    }
}
