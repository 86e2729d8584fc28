//! Laws of all texts of solutions, for the proofs of callers: each function does nothing and states one law.

ghost use Rattle.omega_pg.specs.solution.Grammar.{solution_syntax};
ghost use Rattle.omega_pg.specs.solution.Laws.{ReasonsAreExact, SolutionRefusalsAreOne};
ghost use Rattle.omega_pg.specs.solution.Laws.{SolutionTextsAreReadOrRefused, SolutionsAreNotRefused};
ghost use Rattle.omega_pg.specs.solution.Laws.{SolutionsOfTextsAreOne, WrittenSolutionsAreRead};
ghost use Rattle.omega_text.specs.Syntax.{SyntaxFaultsAreFirst};

use crate::solution::syntax::SolutionSyntax;
use omega_text::PgKind;
use omega_text::laws::{
    cuts_are_one, syntax_faults_are_first, text_faults_are_one, texts_are_read_or_faulty,
    texts_have_no_fault,
};
use omega_text::pg::laws::{
    ends_are_gaps, names_are_longest, numbers_are_longest, signs_are_longest, tokens_follow,
    words_are_longest,
};

/// States that a text describes at most one solution of a game.
pub fn solutions_of_texts_are_one()
    ensures { SolutionsOfTextsAreOne }
{
    cuts_are_one::<PgKind>();
}

/// States that a text has at most one refusal as a solution text of a game.
pub fn solution_refusals_are_one()
    ensures { SolutionRefusalsAreOne }
{
    text_faults_are_one::<SolutionSyntax>();
    texts_have_no_fault::<SolutionSyntax>();
}

/// States that a text that describes a solution of a game has no refusal.
pub fn solutions_are_not_refused()
    ensures { SolutionsAreNotRefused }
{
    cuts_are_one::<PgKind>();
    texts_have_no_fault::<SolutionSyntax>();
}

/// States that a text describes a solution of a game or has a refusal.
pub fn solution_texts_are_read_or_refused()
    ensures { SolutionTextsAreReadOrRefused }
{
    texts_are_read_or_faulty::<SolutionSyntax>();
}

/// States that some text of the grammar begins with the tokens before the place of a syntax fault, and none with one
/// token more.
pub fn solution_syntax_faults_are_first()
    ensures { SyntaxFaultsAreFirst solution_syntax }
{
    syntax_faults_are_first::<SolutionSyntax>();
}

/// States that the written form of a solution, within the limit of texts, describes that solution.
pub fn written_solutions_are_read()
    ensures { WrittenSolutionsAreRead }
{
    tokens_follow();
    ends_are_gaps();
    numbers_are_longest();
    words_are_longest();
    signs_are_longest();
    names_are_longest();
}

/// States that there is a reason for [TaskFault::BadSolution] exactly if no solution of the game is written so.
pub fn reasons_are_exact()
    ensures { ReasonsAreExact }
{}
