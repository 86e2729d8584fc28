//! A letter of the environment, by the names of its propositions.

ghost use Rattle.std.specs.Prelude.{◌≡◌, ◌++◌, [], ◌∷◌, IfOk, IsOkUnless};
ghost use Rattle.std.specs.Prelude.{OnOk, filter, get_or, if◌then◌else◌, not};
ghost use Rattle.std.specs.List.{range_with_len};
ghost use Rattle.omega_graph.specs.Graph.{listed};
ghost use Rattle.omega_answers_synth.specs.Letter.{letter_text};
ghost use Rattle.omega_answers_synth.specs.private.Literals.{literal_words, literals_after};
ghost use Rattle.omega_lang_lasso_word.specs.Letters.{label_words};
ghost use Rattle.omega_lang_lasso_word.specs.Names.{name_text};
ghost use Rattle.omega_synth_game.specs.RoundsOf.{holds_in};
ghost use Rattle.omega_synth_text.specs.Winner.{letter_label};

use crate::parting::is_listed;
use omega_hoa_automaton::Automaton;
use omega_lang_lasso_word::write_name;
use omega_text::{ByteString, Refusal};
use std::alloc::Global;

/// Appends a letter of the environment of `automaton`, in which the propositions with the numbers `letter` hold. The
/// system controls the propositions with the numbers `controlled`.
pub(crate) fn write_letter(
    automaton: &Automaton,
    controlled: &[u32],
    letter: &[u32],
    out: &mut Vec<u8>,
) -> Result<(), Refusal>
    ensures text { OnOk result
        (out.new.items ≡ out.old.items ++ letter_text automaton.now controlled.now letter.now) }
    ensures memory { IsOkUnless result Refusal.Memory }
{
    let names = automaton.propositions();
    let inputs = inputs_of(*out.allocator(), names.len(), controlled)?;
    write_literals(names, letter, inputs.as_slice(), out)
}

/// Returns the inputs: those of `count` propositions that are not `controlled`.
fn inputs_of(alloc: Global, count: usize, controlled: &[u32]) -> Result<Vec<usize>, Refusal>
    ensures inputs { IfOk result
        (λ inputs. inputs.items ≡ filter (λ p. not (listed controlled.now p)) (range_with_len 0 count)) }
    ensures memory { IsOkUnless result Refusal.Memory }
{
    let mut inputs = Vec::new(alloc);
    for p in 0..count {
        push_if(&mut inputs, !is_listed(controlled, p), p)?;
    }
    Ok(inputs)
}

/// Appends `number` if `flag` is set.
fn push_if(numbers: &mut Vec<usize>, flag: bool, number: usize) -> Result<(), Refusal>
    ensures numbers { OnOk result
        (numbers.new.items ≡ numbers.old.items ++ (if flag then number ∷ [] else [])) }
    ensures memory { IsOkUnless result Refusal.Memory }
{
    if flag {
        numbers.push(number)?;
    }
    Ok(())
}

/// Appends the literals of the propositions with the numbers `inputs` in a letter, ` & ` between each two; `1` without
/// any.
fn write_literals(
    names: &[ByteString],
    letter: &[u32],
    inputs: &[usize],
    out: &mut Vec<u8>,
) -> Result<(), Refusal>
    ensures text { OnOk result (out.new.items ≡ out.old.items
        ++ label_words 0 names.now (letter_label (holds_in letter.now) inputs.now)) }
    ensures memory { IsOkUnless result Refusal.Memory }
{
    let [first, others @ ..] = inputs else {
        out.push(b'1')?;
        return Ok(());
    };
    write_literal(names, is_listed(letter, *first), *first, out)?;
    write_others(names, letter, others, out)
}

/// Appends the literals of the propositions with the numbers `others` in a letter, ` & ` before each.
fn write_others(
    names: &[ByteString],
    letter: &[u32],
    others: &[usize],
    out: &mut Vec<u8>,
) -> Result<(), Refusal>
    ensures text { OnOk result
        (out.new.items ≡ out.old.items ++ literals_after names.now letter.now others.now) }
    ensures memory { IsOkUnless result Refusal.Memory }
{
    for p in others {
        out.extend_from_slice(b" & ")?;
        write_literal(names, is_listed(letter, *p), *p, out)?;
    }
    Ok(())
}

/// Appends the proposition `p` by its name if it `holds`, else its negation.
fn write_literal(
    names: &[ByteString],
    holds: bool,
    p: usize,
    out: &mut Vec<u8>,
) -> Result<(), Refusal>
    ensures text { OnOk result (out.new.items ≡ out.old.items ++ literal_words names.now holds p) }
    ensures memory { IsOkUnless result Refusal.Memory }
{
    if !holds {
        out.push(b'!')?;
    }
    write_proposition(names, p, out)
}

/// Appends the name of the proposition `p`, or empty quotes if there is no such proposition, which no automaton allows.
fn write_proposition(names: &[ByteString], p: usize, out: &mut Vec<u8>) -> Result<(), Refusal>
    ensures text { OnOk result (out.new.items ≡ out.old.items ++ name_text (get_or names.now p [])) }
    ensures memory { IsOkUnless result Refusal.Memory }
{
    match names.get(p) {
        Some(name) => write_name(name.as_slice(), out),
        None => write_name(&[], out),
    }
}
