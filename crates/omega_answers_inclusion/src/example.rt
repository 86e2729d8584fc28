ghost use Rattle.std.specs.Prelude.{◌≡◌, ◌++◌, IfOk, IsOkUnless, OnOk};
ghost use Rattle.omega_io.specs.Answer.{explained};
ghost use Rattle.omega_answers_inclusion.specs.Example.{example_lines};

use crate::word_line::append_word_line;
use omega_lang_inclusion::Example;
use omega_lang_lasso_text::write_lasso;
use omega_text::Refusal;
use std::alloc::Global;

/// Returns `who`, which is a line or nothing, and the lines of `example`, if `explain` is set, and else nothing.
pub fn counterexample_lines(
    alloc: Global,
    who: &[u8],
    example: &Example,
    explain: bool,
) -> Result<Vec<u8>, Refusal>
    ensures lines { IfOk result
        (λ lines. lines.items ≡ explained explain (who.now ++ example_lines example.now)) }
    ensures memory { IsOkUnless result Refusal.Memory }
{
    let mut out = Vec::new(alloc);
    if explain {
        out.extend_from_slice(who)?;
        append_lines(alloc, example, &mut out)?;
    }
    Ok(out)
}

/// Appends the lines of the lasso of `example`, and the line of its word.
fn append_lines(alloc: Global, example: &Example, out: &mut Vec<u8>) -> Result<(), Refusal>
    ensures lines { OnOk result (out.new.items ≡ out.old.items ++ example_lines example.now) }
    ensures memory { IsOkUnless result Refusal.Memory }
{
    let lasso = write_lasso(alloc, example.stem.as_slice(), example.cycle.as_slice())?;
    out.extend_from_slice(lasso.as_slice())?;
    append_word_line(alloc, &example.word, out)
}
