//! What is written of a judgement.

ghost use Rattle.std.specs.Prelude.{◌≡◌, IfOk, IsOkUnless};
ghost use Rattle.omega_answers_circuit.specs.JudgementAnswer.{judgement_answer};
ghost use Rattle.omega_io.specs.Answer.{IsReply};

use crate::judgement::CircuitJudgement;
use omega_answers::Answer;
use omega_answers_inclusion::counterexample_lines;
use omega_io::Exit;
use omega_text::Refusal;
use std::alloc::Global;

/// Returns the exit and the text that tell `judgement`, with its counterexample if `explain` is set.
pub(crate) fn judgement_reply(
    alloc: Global,
    judgement: &CircuitJudgement,
    explain: bool,
) -> Result<(Exit, Vec<u8>), Refusal>
    ensures reply { IfOk result
        (λ made. IsReply (judgement_answer explain judgement.now) made.0 made.1.items) }
    ensures memory { IsOkUnless result Refusal.Memory }
{
    let answer = judgement_answer(alloc, judgement, explain)?;
    answer.reply(alloc)
}

/// Returns the answer that tells `judgement`, with its counterexample if `explain` is set.
fn judgement_answer(
    alloc: Global,
    judgement: &CircuitJudgement,
    explain: bool,
) -> Result<Answer, Refusal>
    ensures answer { IfOk result (λ answer. answer ≡ judgement_answer explain judgement.now) }
    ensures memory { IsOkUnless result Refusal.Memory }
{
    match judgement {
        CircuitJudgement::Realizes => Ok(Answer::Yes),
        CircuitJudgement::Violates(example) => {
            let lines = counterexample_lines(alloc, &[], example, explain)?;
            Ok(Answer::no_with(lines))
        }
    }
}
