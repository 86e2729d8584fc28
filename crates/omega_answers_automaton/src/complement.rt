ghost use Rattle.std.specs.Prelude.{IfErr, IfOk};
ghost use Rattle.omega_text.specs.Cases.{or_memory};
ghost use Rattle.omega_lang_complement.specs.Refusing.{IsUncomplemented};
ghost use Rattle.omega_answers_automaton.specs.Complement.{IsComplementAnswer};
ghost use Rattle.omega_answers_automaton.specs.Complement.{IsComplementRefusal, IsComplementText};

use omega_canon::canonical;
use omega_hoa::read_one;
use omega_hoa_automaton::Automaton;
use omega_lang_complement::complement;
use omega_text::Refusal;
use std::alloc::Global;

/// Returns the canonical text of the complement of the automaton of `text`. The cost is that of `complement`, and
/// linear in both texts.
///
/// Fails with the [Refusal::Text] or [Refusal::Automaton] of the text, or else with [TaskFault::UniversalBranch], or
/// else with the first of [TaskFault::TooManyPropositions], [TaskFault::TooLarge] and [TaskFault::NotDeterministic]
/// that `complement` meets.
pub fn complement_text(alloc: Global, text: &[u8]) -> Result<Vec<u8>, Refusal>
    ensures answer { IfOk result (λ output. IsComplementAnswer text.now output.items) }
    ensures refused { IfErr result (or_memory (IsComplementRefusal text.now)) }
{
    let automaton = read_one(alloc, text)?;
    complement_automaton(alloc, &automaton)
}

/// Returns the canonical text of the complement of `automaton`, as [complement_text] does. Fails with
/// [TaskFault::UniversalBranch], or else with the first of [TaskFault::TooManyPropositions], [TaskFault::TooLarge] and
/// [TaskFault::NotDeterministic] that `complement` meets.
pub fn complement_automaton(alloc: Global, automaton: &Automaton) -> Result<Vec<u8>, Refusal>
    ensures text { IfOk result (λ output. IsComplementText automaton.now output.items) }
    ensures refused { IfErr result (IsUncomplemented automaton.now) }
{
    match complement(alloc, automaton) {
        Ok(made) => canonical(alloc, &made),
        Err(refusal) => Err(refusal),
    }
}
