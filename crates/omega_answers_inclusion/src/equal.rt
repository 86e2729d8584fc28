ghost use Rattle.std.specs.Prelude.{◌≡◌, IfErr, IfOk, IsOkUnless, OnOk};
ghost use Rattle.omega_lang_inclusion.specs.Containing.{IsContainment};
ghost use Rattle.omega_lang_inclusion.specs.Equality.{AreEquatable, IsEquality};
ghost use Rattle.omega_lang_inclusion.specs.Refusing.{AreComparable};
ghost use Rattle.omega_io.specs.Answer.{IsReply};
ghost use Rattle.omega_answers_inclusion.specs.Equal.{IsEqualAnswer, IsEqualRefused};
ghost use Rattle.omega_answers_inclusion.specs.Equal.{IsEqualityRefused, IsEqualityVerdict, equality_answer};

use crate::example::counterexample_lines;
use omega_answers::{Answer, read_two, refused_for};
use omega_hoa_automaton::{Automaton, Refusal};
use omega_io::{Exit, Refused, Which};
use omega_lang_inclusion::{Containment, Equality, decide_containment, equality_of};
use std::alloc::Global;

/// Decides whether the automata of `input` and of `file`, which are to be deterministic, accept the same words.
/// Propositions that have one name are the same. Returns `yes` with [Exit::Done], else `no` with [Exit::No].
///
/// If `explain` is set, a line follows `no` that says which of the two accepts a word that the other does not:
/// `accepted by input` or `accepted by file`. Then comes an accepting lasso of that one, as `empty` writes it, and its
/// word. If each accepts a word that the other does not, the word is one of `input`.
///
/// Fails with the [Refusal::Text] or [Refusal::Automaton] of `file`, or else with that of `input`. Or else fails as
/// `contained` of `omega_lang_inclusion` does for the automaton of `input` in that of `file`, or else as it does the
/// other way round. [TaskFault::NotDeterministic] is about the text of the automaton that it names a state of, and
/// [TaskFault::TooLarge], [TaskFault::TooManyPropositions] and [TaskFault::UniversalBranch] are about neither text.
pub fn equal_texts(
    alloc: Global,
    file: &[u8],
    input: &[u8],
    explain: bool,
) -> Result<(Exit, Vec<u8>), Refused>
    ensures answer { IfOk result
        (λ made. IsEqualAnswer file.now input.now explain made.0 made.1.items) }
    ensures refused { IfErr result (IsEqualRefused file.now input.now) }
{
    let read = read_two(alloc, file, input)?;
    equality_verdict(alloc, &read.input, &read.file, explain)
}

/// Returns the exit and the text for two automata, of which `second` is that of the file. Fails as [equal_texts] does
/// after both texts are read.
fn equality_verdict(
    alloc: Global,
    first: &Automaton,
    second: &Automaton,
    explain: bool,
) -> Result<(Exit, Vec<u8>), Refused>
    ensures verdict { IfOk result
        (λ made. IsEqualityVerdict first.now second.now explain made.0 made.1.items) }
    ensures refused { IfErr result (IsEqualityRefused first.now second.now) }
{
    let equality = equality_by_containment(alloc, first, second)?;
    match equality_reply(alloc, &equality, explain) {
        Ok(made) => Ok(made),
        Err(refusal) => Err(Refused::from(refusal)),
    }
}

/// Returns the exit and the text that tell `equality`, with its counterexample if `explain` is set.
fn equality_reply(
    alloc: Global,
    equality: &Equality,
    explain: bool,
) -> Result<(Exit, Vec<u8>), Refusal>
    ensures reply { IfOk result
        (λ made. IsReply (equality_answer explain equality.now) made.0 made.1.items) }
    ensures memory { IsOkUnless result Refusal.Memory }
{
    let answer = equality_answer(alloc, equality, explain)?;
    answer.reply(alloc)
}

/// Returns the answer that tells `equality`.
fn equality_answer(alloc: Global, equality: &Equality, explain: bool) -> Result<Answer, Refusal>
    ensures answer { IfOk result (λ answer. answer ≡ equality_answer explain equality.now) }
    ensures memory { IsOkUnless result Refusal.Memory }
{
    match equality {
        Equality::Equal => Ok(Answer::Yes),
        Equality::OnlyFirst(example) => {
            let lines = counterexample_lines(alloc, b"accepted by input\n", example, explain)?;
            Ok(Answer::no_with(lines))
        }
        Equality::OnlySecond(example) => {
            let lines = counterexample_lines(alloc, b"accepted by file\n", example, explain)?;
            Ok(Answer::no_with(lines))
        }
    }
}

/// Asks both ways whether the one automaton accepts only words that the other accepts.
fn equality_by_containment(
    alloc: Global,
    first: &Automaton,
    second: &Automaton,
) -> Result<Equality, Refused>
    ensures right { IfOk result (IsEquality first.now second.now) }
    ensures given { OnOk result (AreEquatable first.now second.now) }
    ensures refused { IfErr result (IsEqualityRefused first.now second.now) }
{
    match decide_containment(alloc, first, second) {
        Ok(there) => asked_back(alloc, first, second, there),
        Err(refusal) => Err(refused_for(Which::File, refusal)),
    }
}

/// Asks whether `second` accepts only words that `first` accepts, where `there` is the answer the other way round.
fn asked_back(
    alloc: Global,
    first: &Automaton,
    second: &Automaton,
    there: Containment,
) -> Result<Equality, Refused>
    requires right { IsContainment first.now second.now there }
    requires given { AreComparable first.now second.now }
    ensures right { IfOk result (IsEquality first.now second.now) }
    ensures given { OnOk result (AreEquatable first.now second.now) }
    ensures refused { IfErr result (IsEqualityRefused first.now second.now) }
{
    match decide_containment(alloc, second, first) {
        Ok(back) => Ok(equality_of(there, back)),
        Err(refusal) => Err(refused_for(Which::Input, refusal)),
    }
}
