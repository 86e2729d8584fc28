ghost use Rattle.std.specs.Prelude.{◌≡◌, IfErr, IfOk, IsOkUnless};
ghost use Rattle.omega_lang_inclusion.specs.Refusing.{IsContainmentRefusal};
ghost use Rattle.omega_answers_inclusion.specs.Contained.{IsContainedAnswer, IsContainedRefused};
ghost use Rattle.omega_answers_inclusion.specs.Contained.{IsContainmentVerdict, containment_answer};

use crate::example::counterexample_lines;
use omega_answers::{Answer, read_two, refused_for};
use omega_hoa_automaton::{Automaton, Refusal};
use omega_io::{Exit, Refused, Which};
use omega_lang_inclusion::{Containment, decide_containment};
use std::alloc::Global;

/// Decides whether each word that the automaton of `input` accepts is accepted by that of `file`, which is to be
/// deterministic. Propositions that have one name are the same. Returns `yes` with [Exit::Done], else `no` with
/// [Exit::No]. If `explain` is set, an accepting lasso of the automaton of `input` follows `no`, as `empty` writes it,
/// and its word: each word that fits it is accepted by the one and not by the other.
///
/// Fails with the [Refusal::Text] or [Refusal::Automaton] of `file`, or else with that of `input`. Or else fails as
/// `contained` of `omega_lang_inclusion` does: [TaskFault::NotDeterministic] is about `file`, and
/// [TaskFault::TooLarge], [TaskFault::TooManyPropositions] and [TaskFault::UniversalBranch] are about neither text.
pub fn contained_texts(
    alloc: Global,
    file: &[u8],
    input: &[u8],
    explain: bool,
) -> Result<(Exit, Vec<u8>), Refused>
    ensures answer { IfOk result
        (λ made. IsContainedAnswer file.now input.now explain made.0 made.1.items) }
    ensures refused { IfErr result (IsContainedRefused file.now input.now) }
{
    let read = read_two(alloc, file, input)?;
    match contained_automata(alloc, &read.input, &read.file, explain) {
        Ok(made) => Ok(made),
        Err(refusal) => Err(refused_for(Which::File, refusal)),
    }
}

/// Decides whether `other`, which is to be deterministic, accepts each word that `one` accepts, as [contained_texts]
/// does, and returns the exit and the text. Fails as `contained` of `omega_lang_inclusion` does.
pub fn contained_automata(
    alloc: Global,
    one: &Automaton,
    other: &Automaton,
    explain: bool,
) -> Result<(Exit, Vec<u8>), Refusal>
    ensures verdict { IfOk result
        (λ made. IsContainmentVerdict one.now other.now explain made.0 made.1.items) }
    ensures refused { IfErr result (IsContainmentRefusal one.now other.now) }
{
    let containment = decide_containment(alloc, one, other)?;
    let answer = containment_answer(alloc, &containment, explain)?;
    answer.reply(alloc)
}

/// Returns the answer that tells `containment`, with its counterexample if `explain` is set.
fn containment_answer(
    alloc: Global,
    containment: &Containment,
    explain: bool,
) -> Result<Answer, Refusal>
    ensures answer { IfOk result (λ answer. answer ≡ containment_answer explain containment.now) }
    ensures memory { IsOkUnless result Refusal.Memory }
{
    match containment {
        Containment::Contained => Ok(Answer::Yes),
        Containment::NotContained(example) => {
            let lines = counterexample_lines(alloc, &[], example, explain)?;
            Ok(Answer::no_with(lines))
        }
    }
}
