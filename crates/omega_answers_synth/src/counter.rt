//! Whether an automaton is a counter-strategy for a specification.

ghost use Rattle.std.specs.Prelude.{◌≡◌, ◌++◌, IfErr, IfOk, IsOkUnless, OnOk};
ghost use Rattle.omega_hoa_edges.specs.Determinism.{IsDeterministic};
ghost use Rattle.omega_io.specs.Answer.{explained};
ghost use Rattle.omega_synth_check.specs.CounterJudging.{IsCounterJudgement};
ghost use Rattle.omega_synth_check.specs.CounterRefusing.{AreCounterJudged, IsCounterRefusal};
ghost use Rattle.omega_answers_synth.specs.Counter.{IsCounterAnswer, IsCounterRefused, IsCounterVerdict};
ghost use Rattle.omega_answers_synth.specs.Counter.{RefusesCounter, counter_answer, letterless_lines};
ghost use Rattle.omega_answers_synth.specs.Parting.{AreSystemNames};

use crate::about::counter_reported;
use crate::parting::{parted_numbers, system_names};
use crate::reason::start_lines;
use omega_answers::{Answer, read_two};
use omega_answers_inclusion::counterexample_lines;
use omega_hoa_automaton::{Automaton, Refusal};
use omega_io::{Exit, Refused, Which};
use omega_lang_lasso_text::append_numbers;
use omega_synth_check::{
    CounterJudgement, LetterlessPair, check_specification, judge_counter_strategy,
};
use omega_text::{ByteString, write_number};
use std::alloc::Global;

/// Decides whether the automaton of `text` is a counter-strategy for that of `specification`: a strategy of the
/// environment against which no system satisfies the specification. Both are to be deterministic. Returns `yes` with
/// [Exit::Done], else `no` with [Exit::No].
///
/// The system controls the propositions that the items `controllable-AP:` (extended HOA) of the two list, and the
/// environment all others. Propositions that have one name are the same in both automata, and either may have some that
/// the other does not have. If the specification has the item, both have to say the same of the names that both have.
///
/// If `explain` is set, lines follow `no`. Without a start there is one, `no start`. For two states in which the
/// environment has no letter they are `state` with the number of that of the counter-strategy, `specification` with the
/// number of that of the specification, and `stem` with the edges of the specification that lead there from a start.
/// For a word that the specification accepts they are the lines of `contained_texts`: an accepting lasso of the
/// counter-strategy, and its word.
///
/// Fails with the [Refusal::Text] or [Refusal::Automaton] of `specification`, or else with that of `text`. Or else
/// fails with [TaskFault::Controllable] about `specification` if its item is refused, or else so about `text` if its
/// item is, or if the two items differ. Or else fails as `check_specification` does, about `specification`, or else as
/// `judge_counter_strategy` does. Of the latter [TaskFault::UniversalBranch], [TaskFault::NotParity] and
/// [TaskFault::NotDeterministic] are about `text`, and all others about neither text.
pub fn verify_counter_strategy(
    alloc: Global,
    specification: &[u8],
    text: &[u8],
    explain: bool,
) -> Result<(Exit, Vec<u8>), Refused>
    ensures answer { IfOk result
        (λ made. IsCounterAnswer specification.now text.now explain made.0 made.1.items) }
    ensures refused { IfErr result (IsCounterRefused specification.now text.now) }
{
    let read = read_two(alloc, specification, text)?;
    counter_verdict(alloc, &read.file, &read.input, explain)
}

/// Returns the exit and the text for two automata. Fails as [verify_counter_strategy] does after both texts are read.
fn counter_verdict(
    alloc: Global,
    specification: &Automaton,
    strategy: &Automaton,
    explain: bool,
) -> Result<(Exit, Vec<u8>), Refused>
    ensures verdict { IfOk result
        (λ made. IsCounterVerdict specification.now strategy.now explain made.0 made.1.items) }
    ensures refused { IfErr result (RefusesCounter specification.now strategy.now) }
{
    let parted = parted_numbers(alloc, specification, strategy)?;
    let names = match system_names(alloc, specification, strategy, &parted) {
        Ok(names) => names,
        Err(refusal) => return Err(Refused::from(refusal)),
    };
    match check_specification(alloc, specification) {
        Ok(()) => {}
        Err(refusal) => return Err(Refused::of(Which::File, refusal)),
    }
    match counter_reply(alloc, specification, strategy, names.as_slice(), explain) {
        Ok(made) => Ok(made),
        Err(refusal) => Err(counter_reported(refusal)),
    }
}

/// Returns the exit and the text for two automata. The system controls the propositions with these `names`. Fails as
/// `judge_counter_strategy` does.
fn counter_reply(
    alloc: Global,
    specification: &Automaton,
    strategy: &Automaton,
    names: &[ByteString],
    explain: bool,
) -> Result<(Exit, Vec<u8>), Refusal>
    requires named { AreSystemNames specification.now strategy.now names.now }
    requires deterministic { IsDeterministic specification.now }
    ensures verdict { IfOk result
        (λ made. IsCounterVerdict specification.now strategy.now explain made.0 made.1.items) }
    ensures refused { IfErr result (IsCounterRefusal specification.now strategy.now names.now) }
{
    let judgement = judge_counter_strategy(alloc, specification, strategy, names)?;
    let answer = counter_answer(alloc, &judgement, explain)?;
    answer.reply(alloc)
}

/// Returns the answer that tells a judgement, and with the reason if `explain` is set.
fn counter_answer(
    alloc: Global,
    judgement: &CounterJudgement,
    explain: bool,
) -> Result<Answer, Refusal>
    ensures answer { IfOk result (λ answer. answer ≡ counter_answer explain judgement.now) }
    ensures memory { IsOkUnless result Refusal.Memory }
{
    match judgement {
        CounterJudgement::Beats => Ok(Answer::Yes),
        CounterJudgement::NoStart => {
            let lines = start_lines(alloc, explain)?;
            Ok(Answer::no_with(lines))
        }
        CounterJudgement::NoLetter(pair) => {
            let lines = letterless_lines(alloc, pair, explain)?;
            Ok(Answer::no_with(lines))
        }
        CounterJudgement::Common(example) => {
            let lines = counterexample_lines(alloc, &[], example, explain)?;
            Ok(Answer::no_with(lines))
        }
    }
}

/// Returns the lines of two states in which the environment has no letter, if `explain` is set, and else nothing.
fn letterless_lines(alloc: Global, pair: &LetterlessPair, explain: bool) -> Result<Vec<u8>, Refusal>
    ensures lines { IfOk result (λ lines. lines.items ≡ explained explain (letterless_lines pair.now)) }
    ensures memory { IsOkUnless result Refusal.Memory }
{
    let mut out = Vec::new(alloc);
    if explain {
        append_letterless(pair, &mut out)?;
    }
    Ok(out)
}

/// Appends the lines of two states in which the environment has no letter.
fn append_letterless(pair: &LetterlessPair, out: &mut Vec<u8>) -> Result<(), Refusal>
    ensures lines { OnOk result (out.new.items ≡ out.old.items ++ letterless_lines pair.now) }
    ensures memory { IsOkUnless result Refusal.Memory }
{
    out.extend_from_slice(b"state ")?;
    write_number(u128::from(pair.state), out)?;
    out.extend_from_slice(b"\nspecification ")?;
    write_number(u128::from(pair.against), out)?;
    out.extend_from_slice(b"\nstem")?;
    append_numbers(pair.stem.as_slice(), out)?;
    out.extend_from_slice(b"\n")?;
    Ok(())
}
