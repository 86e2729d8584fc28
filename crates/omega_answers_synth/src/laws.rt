//! Laws of answers. No code that runs.

ghost use Rattle.omega_answers_synth.specs.FormulaLaws.{FormulaAnswersAreOne, FormulaRefusalsAreNoFailures};
ghost use Rattle.omega_answers_synth.specs.FormulaLaws.{WrittenControllersAreJudged, WrittenCounterStrategiesAreJudged};
ghost use Rattle.omega_answers_synth.specs.Laws.{ControllerAnswersAreExact, LettersAreTrueWhereGiven};
ghost use Rattle.omega_answers_synth.specs.Laws.{ControllersExcludeStrategies, ControllersForExcludeCounterStrategies};
ghost use Rattle.omega_answers_synth.specs.Laws.{CounterAnswersAreExact, YesExcludesYes};
ghost use Rattle.omega_answers_synth.specs.Laws.{RealizeAnswersAreExact, SizeRefusalsExcludeAnswers};
ghost use Rattle.omega_answers_synth.specs.Laws.{WinnerAnswersAreExact};
ghost use Rattle.omega_answers_synth.specs.Laws.{WrittenControllersAreParts, YesExcludesUnrealizable};

use omega_hoa::{automata_are_one, automata_are_unrefused, refusals_are_one};
use omega_hoa_automaton::meanings_are_automata;
use omega_ltl_text::laws::formulas_of_texts_are_one;
use omega_synth_check::{
    controllers_realize_specifications, counter_judgements_are_exact, counter_strategies_for_beat,
    judgements_are_exact,
};
use omega_synth_controllers::{
    beating_excludes_realizing, controllers_realize, counter_strategies_beat,
};
use omega_synth_formula::{
    formula_controllers_exclude_counter_strategies, formula_counter_judgements_are_exact,
    formula_judgements_are_exact,
};
use omega_synth_realize::large_games_are_not_decided;

/// States that `verify_controller` returns `yes` exactly if the one text is that of a controller for the specification
/// of the other, with the premise of `judgements_are_exact`.
pub fn controller_answers_are_exact()
    ensures { ControllerAnswersAreExact }
{
    automata_are_one();
    judgements_are_exact();
}

/// States that `decide_realizability` returns `realizable` exactly if some strategy of the system realizes the
/// automaton of the text, and `unrealizable` exactly if some strategy of the environment beats it. It has the premise
/// of `controllers_realize`.
pub fn realize_answers_are_exact()
    ensures { RealizeAnswersAreExact }
{
    automata_are_one();
    meanings_are_automata();
    controllers_realize();
    counter_strategies_beat();
    beating_excludes_realizing();
}

/// States that `write_winner` returns [Exit::Done] and [Exit::No] exactly then, with the same premise.
pub fn winner_answers_are_exact()
    ensures { WinnerAnswersAreExact }
{
    automata_are_one();
    meanings_are_automata();
    controllers_realize();
    counter_strategies_beat();
    beating_excludes_realizing();
}

/// States that `decide_realizability`, `write_winner` and `write_realizability_game` answer no text that one of them
/// refuses for the size of its game, and that they refuse it so with one refusal.
pub fn size_refusals_exclude_answers()
    ensures { SizeRefusalsExcludeAnswers }
{
    automata_are_one();
    automata_are_unrefused();
    refusals_are_one();
    large_games_are_not_decided();
}

/// States that no automaton is a controller for a deterministic specification that has a counter-strategy, if the
/// specification says itself which propositions the system controls. Without its item it leaves that to the controller.
pub fn controllers_for_exclude_counter_strategies()
    ensures { ControllersForExcludeCounterStrategies }
{
    controllers_realize_specifications();
    counter_strategies_beat();
}

/// States that `verify_controller` does not return `yes` of any automaton for a specification of which
/// `decide_realizability` returns `unrealizable`, if the specification has the item `controllable-AP:`. It has the
/// premise of `judgements_are_exact`.
pub fn yes_excludes_unrealizable()
    ensures { YesExcludesUnrealizable }
{
    automata_are_one();
    meanings_are_automata();
    judgements_are_exact();
    controllers_for_exclude_counter_strategies();
}

/// States that `verify_counter_strategy` returns `yes` exactly if the one text is that of a counter-strategy for the
/// specification of the other.
pub fn counter_answers_are_exact()
    ensures { CounterAnswersAreExact }
{
    automata_are_one();
    counter_judgements_are_exact();
}

/// States that no automaton is a controller for a deterministic specification for which another is a counter-strategy,
/// if the specification says itself which propositions the system controls.
pub fn controllers_exclude_strategies()
    ensures { ControllersExcludeStrategies }
{
    controllers_realize_specifications();
    counter_strategies_for_beat();
}

/// States that `verify_controller` and `verify_counter_strategy` do not both return `yes` for one specification, if it
/// has the item `controllable-AP:`. It has the premise of `judgements_are_exact`.
pub fn yes_excludes_yes()
    ensures { YesExcludesYes }
{
    automata_are_one();
    meanings_are_automata();
    judgements_are_exact();
    counter_judgements_are_exact();
    controllers_exclude_strategies();
}

/// States that the letter in an answer is a formula over the names of the propositions, and that it is true exactly
/// where the environment gives that letter.
pub fn letters_are_true_where_given()
    ensures { LettersAreTrueWhereGiven }
{}

/// States that a controller as `realize --controller` writes it is a part of its automaton: its states and edges stand
/// for states that are reached and for kept edges, and each state has all kept edges of the one that it stands for.
pub fn written_controllers_are_parts()
    ensures { WrittenControllersAreParts }
{}

/// States that the text of a formula with the same names is not both `realizable` and `unrealizable`: all answers of
/// `decide_formula_realizability` to it are one. It has the premise of `formula_judgements_are_exact`.
pub fn formula_answers_are_one()
    ensures { FormulaAnswersAreOne }
{
    formulas_of_texts_are_one();
    meanings_are_automata();
    formula_judgements_are_exact();
    formula_counter_judgements_are_exact();
    formula_controllers_exclude_counter_strategies();
}

/// States that `verify_formula_controller` returns `yes` of each controller that `write_formula_winner` returns, unless
/// it fails. It has the same premise.
pub fn written_formula_controllers_are_judged()
    ensures { WrittenControllersAreJudged }
{
    formulas_of_texts_are_one();
    automata_are_one();
    formula_judgements_are_exact();
}

/// States that `verify_formula_counter_strategy` returns `yes` of each counter-strategy that `write_formula_winner`
/// returns, unless it fails. It has the same premise.
pub fn written_formula_counter_strategies_are_judged()
    ensures { WrittenCounterStrategiesAreJudged }
{
    formulas_of_texts_are_one();
    automata_are_one();
    formula_counter_judgements_are_exact();
}

/// States that neither `decide_formula_realizability` nor `write_formula_winner` fails with [Refusal::Io].
pub fn formula_refusals_are_no_failures()
    ensures { FormulaRefusalsAreNoFailures }
{}
