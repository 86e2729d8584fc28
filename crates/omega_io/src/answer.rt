ghost use Rattle.std.specs.Prelude.{◌≡◌, IfOk, IsOkUnless};
ghost use Rattle.omega_io.specs.Answer.{IsReply, answer_text, exit_of};
ghost use Rattle.omega_io.specs.declared.answer.Answer.TheVariants.{No};

use crate::exit::Exit;
use omega_text::{Refusal, Seq};
use std::alloc::Global;

/// An answer to a question of yes or no.
#[derive(Debug, Drop, PartialEq, Eq)]
pub enum Answer {
    /// It is so.
    Yes,
    /// It is not so, for the reason that these lines give. There may be none.
    No(Seq<u8>),
}

impl Answer {
    /// Returns `no` for a reason whose lines are `lines`.
    pub fn no_with(lines: Vec<u8>) -> Answer
        ensures { result ≡ No lines.items }
    {
        Answer::No(Seq::from_vec(lines))
    }

    /// Returns how the program ends after the answer, and the text of the answer: `yes`, or `no` and the lines of the
    /// reason.
    pub fn reply(&self, alloc: Global) -> Result<(Exit, Vec<u8>), Refusal>
        ensures reply { IfOk result (λ reply. IsReply self.now reply.0 reply.1.items) }
        ensures memory { IsOkUnless result Refusal.Memory }
    {
        let text = self.text(alloc)?;
        Ok((self.exit(), text))
    }

    /// Returns how the program ends after the answer.
    fn exit(&self) -> Exit
        ensures { result ≡ exit_of self.now }
    {
        match self {
            Answer::Yes => Exit::Done,
            Answer::No(_) => Exit::No,
        }
    }

    /// Returns the text of the answer.
    fn text(&self, alloc: Global) -> Result<Vec<u8>, Refusal>
        ensures text { IfOk result (λ text. text.items ≡ answer_text self.now) }
        ensures memory { IsOkUnless result Refusal.Memory }
    {
        match self {
            Answer::Yes => Ok(Vec::from_slice(alloc, b"yes\n")?),
            Answer::No(lines) => {
                let mut out = Vec::from_slice(alloc, b"no\n")?;
                out.extend_from_slice(lines.as_slice())?;
                Ok(out)
            }
        }
    }
}
