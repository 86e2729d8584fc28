ghost use Rattle.std.specs.Prelude.{◌≡◌, IfOk, IsOkUnless};
ghost use Rattle.omega_answers_stream.specs.Answer.{AppendsAnswer};
ghost use Rattle.omega_answers_stream_questions.specs.Items.{aborted_line};

use omega_text::Refusal;

/// Appends the line `aborted`, which is never `no`.
pub(crate) fn append_aborted(out: &mut Vec<u8>) -> Result<bool, Refusal>
    ensures line { IfOk result (λ no.
        AppendsAnswer (λ answer. answer ≡ aborted_line) out.old.items out.new.items no) }
    ensures memory { IsOkUnless result Refusal.Memory }
{
    out.extend_from_slice(b"aborted\n")?;
    Ok(false)
}
