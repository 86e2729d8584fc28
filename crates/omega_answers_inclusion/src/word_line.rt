ghost use Rattle.std.specs.Prelude.{◌≡◌, ◌++◌, IsOkUnless, OnOk};
ghost use Rattle.omega_answers_inclusion.specs.Example.{word_line};

use omega_lang_lasso_word::{LassoWord, lasso_word_text};
use omega_text::Refusal;
use std::alloc::Global;

/// Appends the line of `words`.
pub(crate) fn append_word_line(
    alloc: Global,
    words: &LassoWord,
    out: &mut Vec<u8>,
) -> Result<(), Refusal>
    ensures line { OnOk result (out.new.items ≡ out.old.items ++ word_line words.now) }
    ensures memory { IsOkUnless result Refusal.Memory }
{
    let text = lasso_word_text(alloc, words)?;
    out.extend_from_slice(b"word ")?;
    out.extend_from_slice(text.as_slice())?;
    out.extend_from_slice(b"\n")?;
    Ok(())
}
