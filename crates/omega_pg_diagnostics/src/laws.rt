//! Laws of all texts, for the proofs of callers: each function does nothing and states one law.

ghost use Rattle.omega_pg_diagnostics.specs.Laws.{CausesAreOfFaults, SolutionCausesAreOfRefusals};

use omega_pg::SolutionSyntax;
use omega_pg::laws::{games_are_not_refused, reasons_are_exact};
use omega_text::laws::texts_have_no_fault;

/// States that the line for a game text is about a node that comes twice if the text is refused with
/// [GameFault::DuplicateNode], and so on. For another fault there is no line, nor for a text that describes a game.
pub fn causes_are_of_faults()
    ensures { CausesAreOfFaults }
{
    games_are_not_refused();
}

/// States that the line for a solution text tells a reason if the text is refused with [TaskFault::BadSolution]. There
/// is none for another refusal, nor for a text that describes a solution.
pub fn solution_causes_are_of_refusals()
    ensures { SolutionCausesAreOfRefusals }
{
    reasons_are_exact();
    texts_have_no_fault::<SolutionSyntax>();
}
