ghost use Rattle.std.specs.Prelude.{◌≡◌, ◌++◌, ◌+◌, ◌-◌, ◌^◌, ◌<◌, IfOk, IfErr, OnOk, IsOkUnless};
ghost use Rattle.std.specs.Io.{StartsWith};
ghost use Rattle.omega_io.specs.Failures.{failures_of};
ghost use Rattle.omega_io.specs.Reading.{ReadsWhole};
ghost use Rattle.omega_answers_stream.specs.Refusing.{RefusesStream};
ghost use Rattle.omega_answers_stream.specs.ShowJson.{IsStreamShowJsonAnswer, acceptance_member};
ghost use Rattle.omega_answers_stream.specs.ShowJson.{item_members, object_line, size_members};

use crate::show::append_count;
use crate::{Automaton, Input, Item, ItemText, tell_stream};
use omega_hoa_acceptance::{Acc, write_acc};
use omega_text::{Refusal, write_number};
use std::alloc::Global;

/// Returns a JSON object on a line for each item of the stream of automata that `input` gives: its number from 0, and
/// its sizes, or that it was aborted. Fails with the [Refusal::Text] or [Refusal::Automaton] of the stream, or with
/// [Refusal::Io] if a read failed.
pub fn show_stream_json<R: Input>(alloc: Global, input: &mut R) -> Result<Vec<u8>, Refusal>
    requires { R.failed input.old < 2 ^ 64 - 1 }
    ensures answer { IfOk result (λ output. ReadsWhole (R.remaining input.old)
        (R.remaining input.new) (λ text. IsStreamShowJsonAnswer text output.items)) }
    ensures refused { IfErr result (RefusesStream (R.remaining input.old) (R.remaining input.new)) }
    ensures counted { R.failed input.new ≡ R.failed input.old + failures_of result }
{
    tell_stream::<ObjectOfItem, R>(alloc, input)
}

/// The text for an item: an object on a line.
struct ObjectOfItem;

impl ItemText for ObjectOfItem {
    ghost text = { object_line };

    fn append(number: usize, item: &Item, out: &mut Vec<u8>) -> Result<(), Refusal> {
        let before = out.len();
        match append_object(number, item, out) {
            Ok(()) => Ok(()),
            Err(wanting) => {
                out.truncate(before);
                Err(wanting)
            }
        }
    }
}

/// Appends the object of the item with this number, or a beginning of it if memory is refused.
fn append_object(number: usize, item: &Item, out: &mut Vec<u8>) -> Result<(), Refusal>
    ensures text { OnOk result (out.new.items ≡ out.old.items ++ object_line number item.now) }
    ensures kept { StartsWith out.new.items out.old.items }
    ensures memory { IsOkUnless result Refusal.Memory }
{
    append_count(b"{\"automaton\":", number, out)?;
    append_members(item, out)?;
    out.extend_from_slice(b"}\n")?;
    Ok(())
}

/// Appends the members of `item` after its number.
fn append_members(item: &Item, out: &mut Vec<u8>) -> Result<(), Refusal>
    ensures text { OnOk result (out.new.items ≡ out.old.items ++ item_members item.now) }
    ensures kept { StartsWith out.new.items out.old.items }
    ensures memory { IsOkUnless result Refusal.Memory }
{
    match item {
        Item::Automaton(automaton) => append_size_members(automaton, out),
        Item::Aborted => Ok(out.extend_from_slice(b",\"aborted\":true")?),
    }
}

/// Appends the members of `automaton` after its number.
fn append_size_members(automaton: &Automaton, out: &mut Vec<u8>) -> Result<(), Refusal>
    ensures text { OnOk result (out.new.items ≡ out.old.items ++ size_members automaton.now) }
    ensures kept { StartsWith out.new.items out.old.items }
    ensures memory { IsOkUnless result Refusal.Memory }
{
    append_count(b",\"states\":", automaton.state_count() as usize, out)?;
    append_count(b",\"edges\":", automaton.edge_count() as usize, out)?;
    append_count(b",\"propositions\":", automaton.propositions().len(), out)?;
    append_count(b",\"sets\":", automaton.set_count() as usize, out)?;
    append_acceptance_member(automaton.acceptance(), out)?;
    Ok(())
}

/// Appends the member `acceptance`.
fn append_acceptance_member(formula: &Acc, out: &mut Vec<u8>) -> Result<(), Refusal>
    ensures text { OnOk result (out.new.items ≡ out.old.items ++ acceptance_member formula.now) }
    ensures kept { StartsWith out.new.items out.old.items }
    ensures memory { IsOkUnless result Refusal.Memory }
{
    out.extend_from_slice(b",\"acceptance\":\"")?;
    write_acc(formula, out)?;
    out.extend_from_slice(b"\"")?;
    Ok(())
}
