//! Laws of games in rounds: what it means for the rounds that a player wins their parity game.

ghost use Rattle.omega_synth_rounds.specs.Laws.{ChosenAnswersWin, ChosenQuestionsWin};

use omega_game_values::specifications_have_one_game;

/// States that the edges that player 0 chooses in winning from a state's node win the rounds from the state: each
/// question has an answer, and the greatest priority of each closed walk is even. Each of them answers a question.
pub fn chosen_answers_win()
    ensures { ChosenAnswersWin }
{
    specifications_have_one_game();
}

/// States that the questions that player 1 chooses in winning from a state's node win the rounds from the state: the
/// greatest priority of each closed walk of answers is odd. Each kept edge answers a question.
pub fn chosen_questions_win()
    ensures { ChosenQuestionsWin }
{
    specifications_have_one_game();
}
