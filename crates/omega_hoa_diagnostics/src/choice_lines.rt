//! The two lines, with their line feeds.

ghost use Rattle.std.specs.Prelude.{◌≡◌, ◌++◌, codes, decimal, IfOk, IsOkUnless, OnOk};
ghost use Rattle.omega_hoa_diagnostics.specs.ChoiceCauses.{edges_line, starts_line};

use omega_text::{Refusal, write_number};
use std::alloc::Global;

/// Returns the line about `count` starts.
pub(crate) fn starts_line(alloc: Global, count: usize) -> Result<Vec<u8>, Refusal>
    ensures line { IfOk result (λ line. line.items ≡ starts_line count) }
    ensures memory { IsOkUnless result Refusal.Memory }
{
    let mut line = Vec::new(alloc);
    append(&mut line, b"omega: there are ", count as u128)?;
    line.extend_from_slice(b" starts\n")?;
    Ok(line)
}

/// Returns the line about two edges of the state with the number `state`, by their numbers.
pub(crate) fn edges_line(
    alloc: Global,
    state: usize,
    first: u128,
    second: u128,
) -> Result<Vec<u8>, Refusal>
    ensures line { IfOk result (λ line. line.items ≡ edges_line state first second) }
    ensures memory { IsOkUnless result Refusal.Memory }
{
    let mut line = edges_begun(alloc, state, first)?;
    append_second(&mut line, second)?;
    Ok(line)
}

/// Returns the beginning of the line about two edges, up to the number of the first.
fn edges_begun(alloc: Global, state: usize, first: u128) -> Result<Vec<u8>, Refusal>
    ensures line { IfOk result (λ line. line.items
        ≡ codes "omega: state " ++ (decimal state ++ (codes ": edges " ++ decimal first))) }
    ensures memory { IsOkUnless result Refusal.Memory }
{
    let mut line = Vec::new(alloc);
    append(&mut line, b"omega: state ", state as u128)?;
    append(&mut line, b": edges ", first)?;
    Ok(line)
}

/// Appends the end of the line about two edges, from behind the number of the first.
fn append_second(line: &mut Vec<u8>, second: u128) -> Result<(), Refusal>
    ensures line { OnOk result (line.new.items ≡ line.old.items
        ++ (codes " and " ++ (decimal second ++ codes " can be taken together\n"))) }
    ensures memory { IsOkUnless result Refusal.Memory }
{
    append(line, b" and ", second)?;
    line.extend_from_slice(b" can be taken together\n")?;
    Ok(())
}

/// Appends `words` and a number.
fn append(line: &mut Vec<u8>, words: &[u8], number: u128) -> Result<(), Refusal>
    ensures line { OnOk result (line.new.items ≡ line.old.items ++ (words.now ++ decimal number)) }
    ensures memory { IsOkUnless result Refusal.Memory }
{
    line.extend_from_slice(words)?;
    write_number(number, line)
}
