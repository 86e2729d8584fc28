//! Words that an automaton accepts and that satisfy a formula or its negation, by the automata of its conjuncts.

ghost use Rattle.std.specs.Prelude.{◌≡◌, false, IfErr, IfOk, OnOk};
ghost use Rattle.omega_hoa_automaton.specs.Branching.{has_universal_branching};
ghost use Rattle.omega_ltl_formula.specs.Table.{tree_of};
ghost use Rattle.omega_ltl_satisfaction.specs.Refusing.{IsMeetingRefusal, IsWordsRefusal};
ghost use Rattle.omega_ltl_satisfaction.specs.SatisfyingWords.{AreWordsOf};
ghost use Rattle.omega_ltl_satisfaction.specs.private.Conjuncts.{AreConjuncts};
ghost use Rattle.omega_ltl_translation.specs.Translation.{asked_tree};

use crate::conjunct::Conjunct;
use crate::conjuncts::{conjuncts_of, whole_conjunct};
use crate::meeting::common_words;
use omega_hoa_automaton::{Automaton, Refusal, has_universal_branching};
use omega_lang_intersection::Intersection;
use omega_ltl_formula::Formula;
use omega_text::TaskFault;
use std::alloc::Global;

/// Returns whether `automaton` accepts a word that satisfies `formula`, or, if `negated`, one that does not. If so,
/// returns such words, and an accepting lasso of `automaton` along which it accepts them.
///
/// Fails as `satisfies` does, for the conjuncts of `formula` or of its negation.
pub(crate) fn words_of(
    alloc: Global,
    automaton: &Automaton,
    formula: &Formula,
    negated: bool,
) -> Result<Intersection, Refusal>
    ensures right { IfOk result
        (AreWordsOf automaton.now formula.now (asked_tree negated (tree_of formula.now))) }
    ensures plain { OnOk result (has_universal_branching automaton.now ≡ false) }
    ensures refused { IfErr result
        (IsWordsRefusal automaton.now (asked_tree negated (tree_of formula.now))) }
{
    if has_universal_branching(automaton) {
        Err(Refusal::Task(TaskFault::UniversalBranch))
    } else {
        words_of_plain(alloc, automaton, formula, negated)
    }
}

/// Returns what [words_of] returns for an automaton without universal branching. If something is too large conjunct by
/// conjunct, the formula is met as a whole: conjuncts that share what they demand may need fewer states so.
fn words_of_plain(
    alloc: Global,
    automaton: &Automaton,
    formula: &Formula,
    negated: bool,
) -> Result<Intersection, Refusal>
    requires { has_universal_branching automaton.now ≡ false }
    ensures right { IfOk result
        (AreWordsOf automaton.now formula.now (asked_tree negated (tree_of formula.now))) }
    ensures refused { IfErr result
        (IsMeetingRefusal automaton.now (asked_tree negated (tree_of formula.now))) }
{
    let conjuncts = conjuncts_of(alloc, formula, negated)?;
    match words_by(alloc, automaton, formula, negated, conjuncts.as_slice()) {
        Err(Refusal::Task(_)) if conjuncts.len() > 1 => {
            let whole = whole_conjunct(alloc, formula, negated)?;
            words_by(alloc, automaton, formula, negated, whole.as_slice())
        }
        answer => answer,
    }
}

/// Returns what [words_of] returns for an automaton without universal branching, by these `conjuncts` of the formula or
/// of its negation.
fn words_by(
    alloc: Global,
    automaton: &Automaton,
    formula: &Formula,
    negated: bool,
    conjuncts: &[Conjunct],
) -> Result<Intersection, Refusal>
    requires plain { has_universal_branching automaton.now ≡ false }
    requires conjuncts { AreConjuncts formula.now (asked_tree negated (tree_of formula.now)) conjuncts.now }
    ensures right { IfOk result
        (AreWordsOf automaton.now formula.now (asked_tree negated (tree_of formula.now))) }
    ensures refused { IfErr result
        (IsMeetingRefusal automaton.now (asked_tree negated (tree_of formula.now))) }
{
    common_words(alloc, automaton, formula, conjuncts)
}
