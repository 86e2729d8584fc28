//! A law of answers by lifting: the call does nothing and states it.

ghost use Rattle.omega_laws.specs.LiftedAnswers.{LiftedAnswersEnd};

use omega_solve::budget::Reporter;

/// Shows that `decide_realizability_by_lifting` and `write_winner_by_lifting` answer only if lifting for player 0 in
/// the game of the rounds ends within the budget, or if there is no start. It follows from their clause `reported`.
pub fn lifted_answers_end<L, W: Reporter<L>>(_reporter: &W)
    ensures { LiftedAnswersEnd (W.tells _reporter.now) }
{}
