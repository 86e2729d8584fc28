//! Letters of the environment as labels.

ghost use Rattle.std.specs.Prelude.{◌≡◌, [], ◌∷◌, ◌++◌, IfOk, IsOkUnless, OnOk, filter, if◌then◌else◌, not};
ghost use Rattle.std.specs.List.{range_with_len};
ghost use Rattle.omega_graph.specs.Graph.{listed};
ghost use Rattle.omega_synth_text.specs.Winner.{letter_label, state_letter};
ghost use Rattle.omega_synth_text.specs.private.Texts.{bytes_of, literal_bytes};

use omega_text::{Numbers, Refusal, write_number};
use std::alloc::Global;

/// Returns the inputs: those of `count` propositions that are not `controlled`.
pub(crate) fn inputs_of(alloc: Global, count: u32, controlled: &[u32]) -> Result<Vec<u32>, Refusal>
    ensures inputs { IfOk result
        (λ inputs. inputs.items ≡ filter (λ p. not (listed controlled.now p)) (range_with_len 0 count)) }
    ensures memory { IsOkUnless result Refusal.Memory }
{
    let mut inputs = Vec::new(alloc);
    for p in 0..count {
        push_if(&mut inputs, !is_listed(controlled, p), p)?;
    }
    Ok(inputs)
}

/// Appends `number` if `flag` is set.
fn push_if(numbers: &mut Vec<u32>, flag: bool, number: u32) -> Result<(), Refusal>
    ensures numbers { OnOk result
        (numbers.new.items ≡ numbers.old.items ++ (if flag then number ∷ [] else [])) }
    ensures memory { IsOkUnless result Refusal.Memory }
{
    if flag {
        numbers.push(number)?;
    }
    Ok(())
}

/// Whether `number` is one of `numbers`.
fn is_listed(numbers: &[u32], number: u32) -> bool
    ensures { result ≡ listed numbers.now number }
{
    numbers.iter().any(|other| *other == number)
}

/// Returns the text of the letter of `state` over `inputs`; `letters` lists for each state the propositions that hold.
pub(crate) fn letter_text(
    alloc: Global,
    inputs: &[u32],
    letters: &[Numbers],
    state: u32,
) -> Result<Vec<u8>, Refusal>
    ensures text { IfOk result
        (λ text. text.items ≡ bytes_of (state_letter inputs.now letters.now state)) }
    ensures memory { IsOkUnless result Refusal.Memory }
{
    let mut text = Vec::new(alloc);
    let at = state as usize;
    if at < letters.len() {
        write_letter(letters[at].as_slice(), inputs, &mut text)?;
    } else {
        write_letter(&[], inputs, &mut text)?;
    }
    Ok(text)
}

/// Appends the letter over `inputs` in which `held` hold.
fn write_letter(held: &[u32], inputs: &[u32], out: &mut Vec<u8>) -> Result<(), Refusal>
    ensures text { OnOk result
        (out.new.items ≡ out.old.items ++ bytes_of (letter_label (listed held.now) inputs.now)) }
    ensures memory { IsOkUnless result Refusal.Memory }
{
    let [first, others @ ..] = inputs else {
        out.push(b't')?;
        return Ok(());
    };
    write_literal(is_listed(held, *first), u64::from(*first), out)?;
    for input in others {
        out.push(b'&')?;
        write_literal(is_listed(held, *input), u64::from(*input), out)?;
    }
    Ok(())
}

/// Appends the proposition `p` if it `holds`, else its negation.
pub(crate) fn write_literal(holds: bool, p: u64, out: &mut Vec<u8>) -> Result<(), Refusal>
    ensures text { OnOk result (out.new.items ≡ out.old.items ++ literal_bytes holds p) }
    ensures memory { IsOkUnless result Refusal.Memory }
{
    if !holds {
        out.push(b'!')?;
    }
    write_number(u128::from(p), out)?;
    Ok(())
}
