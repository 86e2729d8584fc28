ghost use Rattle.std.specs.Prelude.{IfErr, IfOk};
ghost use Rattle.omega_text.specs.Cases.{or_memory};
ghost use Rattle.omega_lang_trim.specs.Refusing.{IsTrimRefusal};
ghost use Rattle.omega_answers_automaton.specs.Trim.{IsTrimAnswer, IsTrimAnswerRefusal, IsTrimText};

use omega_canon::canonical;
use omega_hoa::read_one;
use omega_hoa_automaton::Automaton;
use omega_lang_trim::trim;
use omega_text::Refusal;
use std::alloc::Global;

/// Returns the canonical text of the automaton of `text` without its useless states, those that no start reaches or in
/// which no accepting lasso starts. The cost is that of `trim`, and linear in both texts.
///
/// Fails with the [Refusal::Text] or [Refusal::Automaton] of the text, or else with the first of
/// [TaskFault::UniversalBranch], [TaskFault::TooManyPropositions] and [TaskFault::TooLarge] that `trim` meets.
pub fn trim_text(alloc: Global, text: &[u8]) -> Result<Vec<u8>, Refusal>
    ensures answer { IfOk result (λ output. IsTrimAnswer text.now output.items) }
    ensures refused { IfErr result (or_memory (IsTrimAnswerRefusal text.now)) }
{
    let automaton = read_one(alloc, text)?;
    trim_automaton(alloc, &automaton)
}

/// Returns the canonical text of `automaton` without its useless states, as [trim_text] does. Fails with the first of
/// [TaskFault::UniversalBranch], [TaskFault::TooManyPropositions] and [TaskFault::TooLarge] that `trim` meets.
pub fn trim_automaton(alloc: Global, automaton: &Automaton) -> Result<Vec<u8>, Refusal>
    ensures text { IfOk result (λ output. IsTrimText automaton.now output.items) }
    ensures refused { IfErr result (IsTrimRefusal automaton.now) }
{
    match trim(alloc, automaton) {
        Ok(trimmed) => {
            trimmed.keeps_limits();
            canonical(alloc, &trimmed)
        }
        Err(refusal) => Err(refusal),
    }
}
