ghost use Rattle.std.specs.Prelude.{IfErr, IfOk};
ghost use Rattle.omega_text.specs.Cases.{or_memory};
ghost use Rattle.omega_hoa.specs.Stream.{IsStreamRefusal, IsStreamText};

use crate::item::Item;
use crate::stream::Stream;
use omega_text::Refusal;
use std::alloc::Global;

/// Reads the items of a stream of automata, in order. Refused with a `TextFault`, an `AutomatonFault` or
/// [Refusal::Memory].
///
/// The first refused segment decides, and before it the first fault outside segments. Inside a segment a fault of
/// tokens comes before [TextFault::Syntax], and that before a fault of the segment's meaning. The bytes are looked at
/// once, and those of whole segments once more.
pub fn read_stream(alloc: Global, bytes: &[u8]) -> Result<Vec<Item>, Refusal>
    ensures items { IfOk result (λ items. IsStreamText bytes.now items.items) }
    ensures refused { IfErr result (or_memory (IsStreamRefusal bytes.now)) }
{
    let mut items = Vec::new(alloc);
    let mut stream = Stream::new(alloc);
    stream.feed(bytes, &mut items)?;
    stream.finish()?;
    Ok(items)
}
