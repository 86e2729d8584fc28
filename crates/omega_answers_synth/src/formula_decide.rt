//! Whether a formula is realizable, in one line.

ghost use Rattle.std.specs.Prelude.{◌≡◌, IfErr, IfOk, IsOkUnless};
ghost use Rattle.omega_text.specs.Cases.{or_memory};
ghost use Rattle.omega_answers_synth.specs.FormulaRefusing.{IsFormulaRealizeRefusal};
ghost use Rattle.omega_answers_synth.specs.FormulaWinner.{IsFormulaRealizeAnswer, verdict_line};
ghost use Rattle.omega_answers_synth.specs.Outputs.{lists_of};

use crate::formula_winner::write_formula_winner;
use crate::given_names::GivenNames;
use omega_hoa_automaton::Refusal;
use omega_io::Exit;
use std::alloc::Global;

/// Decides whether the formula of `formula` is realizable: whether some system satisfies it, whatever the environment
/// gives. Returns `realizable` with [Exit::Done], or `unrealizable` with [Exit::No]. It returns the one only if an
/// automaton is judged to be a controller for the formula, and the other only if one is judged to be a
/// counter-strategy. So nothing of the search is trusted.
///
/// With [GivenNames::outs] alone the system controls these names and the environment all others of the formula. With
/// [GivenNames::ins] alone the environment controls these and the system all others. With both, each name of the
/// formula is to be in exactly one of the two. Each name that is given is to be one of the formula's.
///
/// The search makes a deterministic automaton of the formula and decides who wins its game, by a search or else by
/// lifting. Takes time and memory that may be doubly exponential in the size of the formula.
///
/// Refusals, the first of these steps that has one:
///
/// - The [Refusal::Text] of the formula, or [AutomatonFault::TooDeep] or [TaskFault::TooLarge] if it is over a limit.
/// - [TaskFault::Controllable] if the names are not given so, or if no list is given.
/// - [TaskFault::TooLarge] if the formula has over 16 names or its automaton passes a limit of
///   `omega_ltl_deterministic::complete_candidate`.
/// - Those of `omega_synth_realize::realize` for that automaton, of its size: [TaskFault::TooManyPropositions],
///   [TaskFault::TooLarge], [GameFault::TooManyNodes], [GameFault::TooManyEdges], [TaskFault::TooWide] and
///   [TaskFault::Budget].
/// - [TaskFault::TooLarge] if the text of the winner is over the limit of texts, or its labels over that of labels.
/// - [TaskFault::TooManyPropositions] or [TaskFault::TooLarge] if the judge of the winner is over a limit.
/// - [TaskFault::Unjudged] if the judge says that it is no winner, or if it or the automaton of the formula is not of
///   the form that the search gives it, which is a fault of the program.
pub fn decide_formula_realizability(
    alloc: Global,
    formula: &[u8],
    names: GivenNames<'_>,
) -> Result<(Exit, Vec<u8>), Refusal>
    ensures answer { IfOk result
        (λ made. IsFormulaRealizeAnswer formula.now (lists_of names.entry) made.0 made.1.items) }
    ensures refused { IfErr result
        (or_memory (IsFormulaRealizeRefusal formula.now (lists_of names.entry))) }
{
    let winner = write_formula_winner(alloc, formula, names)?;
    verdict_reply(alloc, winner.0)
}

/// Returns `exit` and the line that tells it.
fn verdict_reply(alloc: Global, exit: Exit) -> Result<(Exit, Vec<u8>), Refusal>
    ensures reply { IfOk result
        (λ made. (made.0 ≡ exit) × (made.1.items ≡ verdict_line exit)) }
    ensures memory { IsOkUnless result Refusal.Memory }
{
    let line = match exit {
        Exit::Done => Vec::from_slice(alloc, b"realizable\n")?,
        Exit::No => Vec::from_slice(alloc, b"unrealizable\n")?,
    };
    Ok((exit, line))
}
