ghost use Rattle.std.specs.Prelude.{◌≡◌, IfOk, IfErr, IsOkUnless};
ghost use Rattle.omega_hoa.specs.Alone.{IsAutomatonRefusal};
ghost use Rattle.omega_text.specs.Cases.{or_memory};
ghost use Rattle.omega_lang_lasso_search.specs.Searching.{IsSearchRefusal};
ghost use Rattle.omega_answers_empty.specs.Draw.{IsAutomatonDrawingAnswer};
ghost use Rattle.omega_answers_empty.specs.Draw.{IsLassoDrawing, IsLassoDrawingAnswer, drawing_of_verdict};
ghost use Rattle.omega_answers_empty.specs.empty.Answer.{IsEmptySearchRefusal};

use omega_hoa::read_one;
use omega_hoa_automaton::{Automaton, Refusal};
use omega_hoa_dot::{draw_automaton, draw_lasso};
use omega_lang_lasso_search::{Verdict, lasso};
use std::alloc::Global;

/// Returns the drawing of the automaton of `text`. Fails with the [Refusal::Text] or [Refusal::Automaton] of the text.
pub fn draw_automaton_text(alloc: Global, text: &[u8]) -> Result<Vec<u8>, Refusal>
    ensures answer { IfOk result (λ output. IsAutomatonDrawingAnswer text.now output.items) }
    ensures refused { IfErr result (or_memory (IsAutomatonRefusal text.now)) }
{
    let automaton = read_one(alloc, text)?;
    draw_automaton(alloc, &automaton)
}

/// Returns the drawing of the automaton of `text` with an accepting lasso, found by a search, or without one if no
/// lasso accepts. Fails with the [Refusal::Text] or [Refusal::Automaton] of the text, or else with
/// [TaskFault::UniversalBranch], or else with [TaskFault::TooManyPropositions].
pub fn draw_lasso_text(alloc: Global, text: &[u8]) -> Result<Vec<u8>, Refusal>
    ensures answer { IfOk result (λ output. IsLassoDrawingAnswer text.now output.items) }
    ensures refused { IfErr result (or_memory (IsEmptySearchRefusal text.now)) }
{
    let automaton = read_one(alloc, text)?;
    draw_searched(alloc, &automaton)
}

/// Returns the drawing of `automaton` with an accepting lasso, or without one if no lasso accepts. Fails with
/// [TaskFault::UniversalBranch], or else with [TaskFault::TooManyPropositions].
fn draw_searched(alloc: Global, automaton: &Automaton) -> Result<Vec<u8>, Refusal>
    ensures drawn { IfOk result (λ output. IsLassoDrawing automaton.now output.items) }
    ensures refused { IfErr result (IsSearchRefusal automaton.now) }
{
    let verdict = lasso(alloc, automaton)?;
    draw_verdict(alloc, automaton, &verdict)
}

/// Returns the drawing of `automaton` with the lasso of `verdict`, if it has one.
fn draw_verdict(alloc: Global, automaton: &Automaton, verdict: &Verdict) -> Result<Vec<u8>, Refusal>
    ensures text { IfOk result (λ text. text.items ≡ drawing_of_verdict automaton.now verdict.now) }
    ensures memory { IsOkUnless result Refusal.Memory }
{
    match verdict {
        Verdict::Empty => draw_automaton(alloc, automaton),
        Verdict::Lasso { stem, cycle } => {
            draw_lasso(alloc, automaton, stem.as_slice(), cycle.as_slice())
        }
    }
}
