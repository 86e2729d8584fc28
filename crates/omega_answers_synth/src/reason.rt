//! What is written of a judgement.

ghost use Rattle.std.specs.Prelude.{◌≡◌, ◌++◌, IfOk, IsOkUnless, OnOk, codes};
ghost use Rattle.omega_io.specs.Answer.{explained};
ghost use Rattle.omega_answers_synth.specs.Reason.{judgement_answer, lack_lines};

use crate::letter::write_letter;
use omega_answers::Answer;
use omega_answers_inclusion::counterexample_lines;
use omega_hoa_automaton::{Automaton, Refusal};
use omega_lang_lasso_text::append_numbers;
use omega_synth_check::{Judgement, Lack};
use omega_text::write_number;
use std::alloc::Global;

/// Returns the answer that tells a judgement on `controller`, of which the system controls the propositions with the
/// numbers `controlled`, and with the reason if `explain` is set.
pub(crate) fn judgement_answer(
    alloc: Global,
    controller: &Automaton,
    controlled: &[u32],
    judgement: &Judgement,
    explain: bool,
) -> Result<Answer, Refusal>
    ensures answer { IfOk result (λ answer.
        answer ≡ judgement_answer explain controller.now controlled.now judgement.now) }
    ensures memory { IsOkUnless result Refusal.Memory }
{
    match judgement {
        Judgement::Controls => Ok(Answer::Yes),
        Judgement::NoStart => {
            let lines = start_lines(alloc, explain)?;
            Ok(Answer::no_with(lines))
        }
        Judgement::Unanswered(lack) => {
            let lines = lack_lines(alloc, controller, controlled, lack, explain)?;
            Ok(Answer::no_with(lines))
        }
        Judgement::NotAccepted(example) => {
            let lines = counterexample_lines(alloc, &[], example, explain)?;
            Ok(Answer::no_with(lines))
        }
    }
}

/// Returns the line that says that an automaton has no start, if `explain` is set, and else nothing.
pub(crate) fn start_lines(alloc: Global, explain: bool) -> Result<Vec<u8>, Refusal>
    ensures lines { IfOk result (λ lines. lines.items ≡ explained explain (codes "no start\n")) }
    ensures memory { IsOkUnless result Refusal.Memory }
{
    let mut out = Vec::new(alloc);
    if explain {
        out.extend_from_slice(b"no start\n")?;
    }
    Ok(out)
}

/// Returns the lines of a state of `controller` that does not answer a letter, if `explain` is set, and else nothing.
fn lack_lines(
    alloc: Global,
    controller: &Automaton,
    controlled: &[u32],
    lack: &Lack,
    explain: bool,
) -> Result<Vec<u8>, Refusal>
    ensures lines { IfOk result (λ lines.
        lines.items ≡ explained explain (lack_lines controller.now controlled.now lack.now)) }
    ensures memory { IsOkUnless result Refusal.Memory }
{
    let mut out = Vec::new(alloc);
    if explain {
        append_lack(controller, controlled, lack, &mut out)?;
    }
    Ok(out)
}

/// Appends the lines of a state of `controller` that does not answer a letter.
fn append_lack(
    controller: &Automaton,
    controlled: &[u32],
    lack: &Lack,
    out: &mut Vec<u8>,
) -> Result<(), Refusal>
    ensures lines { OnOk result
        (out.new.items ≡ out.old.items ++ lack_lines controller.now controlled.now lack.now) }
    ensures memory { IsOkUnless result Refusal.Memory }
{
    out.extend_from_slice(b"state ")?;
    write_number(u128::from(lack.state), out)?;
    out.extend_from_slice(b"\nletter ")?;
    write_letter(controller, controlled, lack.letter.as_slice(), out)?;
    out.extend_from_slice(b"\nstem")?;
    append_numbers(lack.stem.as_slice(), out)?;
    out.extend_from_slice(b"\n")?;
    Ok(())
}
