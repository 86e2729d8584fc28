ghost use Rattle.std.specs.Prelude.{◌≡◌, ◌++◌, ◌+◌, ◌-◌, ◌^◌, ◌<◌, IfOk, IfErr, OnOk, IsOkUnless};
ghost use Rattle.std.specs.Io.{StartsWith};
ghost use Rattle.omega_io.specs.Failures.{failures_of};
ghost use Rattle.omega_io.specs.Reading.{ReadsWhole};
ghost use Rattle.omega_answers_stream.specs.Refusing.{RefusesStream};
ghost use Rattle.omega_answers_stream.specs.Show.{IsStreamShowAnswer, acceptance_text};
ghost use Rattle.omega_answers_stream.specs.Show.{count_text, item_line, item_text, sizes_text};

use crate::{Automaton, Input, Item, ItemText, tell_stream};
use omega_hoa_acceptance::{Acc, write_acc};
use omega_text::{Refusal, write_number};
use std::alloc::Global;

/// Returns a line for each item of the stream of automata that `input` gives: its number from 0, and its sizes, or that
/// it was aborted. Fails with the [Refusal::Text] or [Refusal::Automaton] of the stream, or with [Refusal::Io] if a
/// read failed.
pub fn show_stream<R: Input>(alloc: Global, input: &mut R) -> Result<Vec<u8>, Refusal>
    requires { R.failed input.old < 2 ^ 64 - 1 }
    ensures answer { IfOk result (λ output. ReadsWhole (R.remaining input.old)
        (R.remaining input.new) (λ text. IsStreamShowAnswer text output.items)) }
    ensures refused { IfErr result (RefusesStream (R.remaining input.old) (R.remaining input.new)) }
    ensures counted { R.failed input.new ≡ R.failed input.old + failures_of result }
{
    tell_stream::<LineOfItem, R>(alloc, input)
}

/// The text for an item: a line.
struct LineOfItem;

impl ItemText for LineOfItem {
    ghost text = { item_line };

    fn append(number: usize, item: &Item, out: &mut Vec<u8>) -> Result<(), Refusal> {
        let before = out.len();
        match append_line(number, item, out) {
            Ok(()) => Ok(()),
            Err(wanting) => {
                out.truncate(before);
                Err(wanting)
            }
        }
    }
}

/// Appends the line of the item with this number, or a beginning of it if memory is refused.
fn append_line(number: usize, item: &Item, out: &mut Vec<u8>) -> Result<(), Refusal>
    ensures text { OnOk result (out.new.items ≡ out.old.items ++ item_line number item.now) }
    ensures kept { StartsWith out.new.items out.old.items }
    ensures memory { IsOkUnless result Refusal.Memory }
{
    write_number(number as u128, out)?;
    out.extend_from_slice(b" ")?;
    append_item(item, out)?;
    out.extend_from_slice(b"\n")?;
    Ok(())
}

fn append_item(item: &Item, out: &mut Vec<u8>) -> Result<(), Refusal>
    ensures text { OnOk result (out.new.items ≡ out.old.items ++ item_text item.now) }
    ensures kept { StartsWith out.new.items out.old.items }
    ensures memory { IsOkUnless result Refusal.Memory }
{
    match item {
        Item::Automaton(automaton) => append_sizes(automaton, out),
        Item::Aborted => Ok(out.extend_from_slice(b"aborted")?),
    }
}

fn append_sizes(automaton: &Automaton, out: &mut Vec<u8>) -> Result<(), Refusal>
    ensures text { OnOk result (out.new.items ≡ out.old.items ++ sizes_text automaton.now) }
    ensures kept { StartsWith out.new.items out.old.items }
    ensures memory { IsOkUnless result Refusal.Memory }
{
    append_count(b"automaton states ", automaton.state_count() as usize, out)?;
    append_count(b" edges ", automaton.edge_count() as usize, out)?;
    append_count(b" propositions ", automaton.propositions().len(), out)?;
    append_count(b" sets ", automaton.set_count() as usize, out)?;
    append_acceptance(automaton.acceptance(), out)?;
    Ok(())
}

/// Appends the name of `what` is counted and the `count`, or a beginning of this if memory is refused.
pub(crate) fn append_count(what: &[u8], count: usize, out: &mut Vec<u8>) -> Result<(), Refusal>
    ensures text { OnOk result (out.new.items ≡ out.old.items ++ count_text what.now count) }
    ensures kept { StartsWith out.new.items out.old.items }
    ensures memory { IsOkUnless result Refusal.Memory }
{
    out.extend_from_slice(what)?;
    write_number(count as u128, out)
}

fn append_acceptance(formula: &Acc, out: &mut Vec<u8>) -> Result<(), Refusal>
    ensures text { OnOk result (out.new.items ≡ out.old.items ++ acceptance_text formula.now) }
    ensures kept { StartsWith out.new.items out.old.items }
    ensures memory { IsOkUnless result Refusal.Memory }
{
    out.extend_from_slice(b" acceptance ")?;
    write_acc(formula, out)
}
