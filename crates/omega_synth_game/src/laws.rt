//! Laws of the rounds of an automaton.

ghost use Rattle.omega_synth_game.specs.Laws.{AnsweringsAreControllers, AskingsAreCounterStrategies};
ghost use Rattle.omega_synth_game.specs.Laws.{MetAnswersAreMet, NoStartIsRefused};
ghost use Rattle.omega_synth_game.specs.SizeLaws.{GameSizesAreOne, LargeGamesAreNotSmall};
ghost use Rattle.omega_synth_game.specs.SizeLaws.{LargeGamesMentionFew, SizeFaultsAreOne};

use omega_hoa_acceptance::parity_is_priority;

/// States that edges that win the rounds of an automaton for player 0 are a controller of the automaton.
pub fn answerings_are_controllers()
    ensures { AnsweringsAreControllers }
{
    parity_is_priority();
}

/// States that questions that win the rounds of an automaton for player 1 are a counter-strategy of the automaton, with
/// their letters, each the first of its class.
pub fn askings_are_counter_strategies()
    ensures { AskingsAreCounterStrategies }
{
    parity_is_priority();
}

/// States that kept edges of the rounds of an automaton that answer questions, each of a state that kept edges lead to,
/// are usable edges of states that are met.
pub fn met_answers_are_met()
    ensures { MetAnswersAreMet }
{
    parity_is_priority();
}

/// States that an automaton without a start has a counter-strategy without edges.
pub fn no_start_is_refused()
    ensures { NoStartIsRefused }
{}

/// States that the game of an automaton has one count of nodes and one of edges, however the classes of letters of its
/// states are listed.
pub fn game_sizes_are_one()
    ensures { GameSizesAreOne }
{}

/// States that a game that is too large is not small, so that no automaton is both refused for the size of its game and
/// answered.
pub fn large_games_are_not_small()
    ensures { LargeGamesAreNotSmall }
{}

/// States that an automaton whose game is too large has no state that mentions too many inputs before the classes are
/// too many. So it is refused for its game, unless a label is not judged.
pub fn large_games_mention_few()
    ensures { LargeGamesMentionFew }
{}

/// States that a game that is too large has too many nodes, or else too many edges, and never both.
pub fn size_faults_are_one()
    ensures { SizeFaultsAreOne }
{}
