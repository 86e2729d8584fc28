//! Lines with numbers in them.

ghost use Rattle.std.specs.Prelude.{◌≡◌, ◌++◌, IfOk, IsOkUnless, OnOk, decimal};

use omega_text::{Refusal, write_number};
use std::alloc::Global;

/// Returns a line so far: `words` and a number.
pub(crate) fn line_beginning(alloc: Global, words: &[u8], number: u32) -> Result<Vec<u8>, Refusal>
    ensures line { IfOk result (λ line. line.items ≡ words.now ++ decimal number) }
    ensures memory { IsOkUnless result Refusal.Memory }
{
    let mut line = Vec::new(alloc);
    append(&mut line, words, number)?;
    Ok(line)
}

/// Appends `words` and a number.
pub(crate) fn append(line: &mut Vec<u8>, words: &[u8], number: u32) -> Result<(), Refusal>
    ensures line { OnOk result (line.new.items ≡ line.old.items ++ (words.now ++ decimal number)) }
    ensures memory { IsOkUnless result Refusal.Memory }
{
    line.extend_from_slice(words)?;
    write_number(u128::from(number), line)
}
