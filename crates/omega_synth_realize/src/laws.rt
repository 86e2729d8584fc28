//! Laws of automata and of their games.

ghost use Rattle.omega_synth_realize.specs.Laws.{AutomataAreDecided, GamesDecide, LargeGamesAreNotDecided};

use omega_game_reaching::parts_keep_nodes;
use omega_game_region_laws::{regions_cover, regions_of_parts};
use omega_game_values::choices_are_entries;
use omega_synth_controllers::controllers_exclude_counter_strategies;
use omega_synth_game::{
    answerings_are_controllers, askings_are_counter_strategies, large_games_are_not_small,
    no_start_is_refused, size_faults_are_one,
};
use omega_synth_rounds::{chosen_answers_win, chosen_questions_win};

/// States that the game that `realizability_game` returns of an automaton with a start decides whether it is
/// realizable: player 0 wins the start's node exactly if there is a controller, and player 1 exactly if there is a
/// counter-strategy. So there is one or the other, and never both.
pub fn games_decide()
    ensures { GamesDecide }
{
    choices_are_entries();
    parts_keep_nodes();
    regions_cover();
    regions_of_parts();
    chosen_answers_win();
    chosen_questions_win();
    answerings_are_controllers();
    askings_are_counter_strategies();
    controllers_exclude_counter_strategies();
}

/// States that a deterministic automaton of a parity kind has a controller or a counter-strategy, and never both, if
/// its game is not too large, as it is not where `realize` answers.
pub fn automata_are_decided()
    ensures { AutomataAreDecided }
{
    choices_are_entries();
    regions_cover();
    chosen_answers_win();
    chosen_questions_win();
    answerings_are_controllers();
    askings_are_counter_strategies();
    no_start_is_refused();
    controllers_exclude_counter_strategies();
}

/// States that an automaton whose game is too large has no answer and no fault of lifting, and that its game is too
/// large by its nodes, or else by its edges.
pub fn large_games_are_not_decided()
    ensures { LargeGamesAreNotDecided }
{
    large_games_are_not_small();
    size_faults_are_one();
}
