//! Laws of the winners that texts of solutions give, for the proofs of callers: each function does nothing and states
//! one law.

ghost use Rattle.omega_pg.specs.solution.WinnerLaws.{SolutionsGiveTheirWinners, WinnerRefusalsAreOne};
ghost use Rattle.omega_pg.specs.solution.WinnerLaws.{WinnerTextsAreReadOrRefused};
ghost use Rattle.omega_pg.specs.solution.WinnerLaws.{WinnersAreNotRefused, WinnersOfTextsAreOne};

use crate::solution::syntax::SolutionSyntax;
use omega_text::PgKind;
use omega_text::laws::{
    cuts_are_one, text_faults_are_one, texts_are_read_or_faulty, texts_have_no_fault,
};

/// States that a text gives the nodes of a game at most one list of winners.
pub fn winners_of_texts_are_one()
    ensures { WinnersOfTextsAreOne }
{
    cuts_are_one::<PgKind>();
}

/// States that a text has at most one refusal as a text of the winners of a game.
pub fn winner_refusals_are_one()
    ensures { WinnerRefusalsAreOne }
{
    text_faults_are_one::<SolutionSyntax>();
    texts_have_no_fault::<SolutionSyntax>();
}

/// States that a text that gives winners has no refusal.
pub fn winners_are_not_refused()
    ensures { WinnersAreNotRefused }
{
    cuts_are_one::<PgKind>();
    texts_have_no_fault::<SolutionSyntax>();
}

/// States that a text gives winners or has a refusal.
pub fn winner_texts_are_read_or_refused()
    ensures { WinnerTextsAreReadOrRefused }
{
    texts_are_read_or_faulty::<SolutionSyntax>();
}

/// States that a text that describes a solution gives the winners of that solution.
pub fn solutions_give_their_winners()
    ensures { SolutionsGiveTheirWinners }
{}
