ghost use Rattle.std.specs.Prelude.{◌≡◌, ◌≤◌, ◌++◌, [], None, length};
ghost use Rattle.std.specs.Prelude.{slice_range, take, IfErr, IfOk, IsSome, OnOk};
ghost use Rattle.omega_text.specs.Cases.{IsMemory};
ghost use Rattle.omega_hoa_label_text.specs.Expanding.{IsExpanded, IsExpansion, IsUnexpanded, entries_of};
ghost use Rattle.omega_hoa_label_text.specs.Expanding.{expansion, fault_of_meaning, replaced};
ghost use Rattle.omega_hoa_label_text.specs.private.Emitting.{nodes_of};

use crate::aliases::Aliases;
use omega_hoa_expression::{MOST_DEPTH, MOST_SIZE, bytes_after, first_bytes};
use omega_hoa_label::{Label, LabelNode, ROOM, RawLabel};
use omega_text::{AutomatonFault, Refusal};
use std::alloc::Global;

/// The greatest number of nodes that are copied at once, in two kilobytes.
const MOST_AT_ONCE: usize = 256;

/// Expands `raw`: replaces its aliases by their definitions and drops its parentheses.
///
/// Refused with [AutomatonFault::Alias] if it reaches an undefined alias. Else refused with [AutomatonFault::TooDeep]
/// if it is over 256 deep, an alias counting as its definition between parentheses. Else refused with
/// [AutomatonFault::Expansion] if it has over 65,536 tree nodes. All this comes before anything is copied.
pub fn expand(alloc: Global, raw: &RawLabel, aliases: &Aliases) -> Result<Label, Refusal>
    ensures ok { IfOk result (λ label. IsExpansion aliases.now raw.now label) }
    ensures err { IfErr result (IsUnexpanded aliases.now raw.now) }
{
    let size = expanded_size(alloc, raw, aliases)?;
    replace_aliases(alloc, raw, aliases, size as usize)
}

/// Expands `raw` as `expand` does, and drops it. A label without aliases keeps its memory, and nothing is copied.
pub fn expand_in_place(alloc: Global, raw: RawLabel, aliases: &Aliases) -> Result<Label, Refusal>
    ensures ok { IfOk result (λ label. IsExpansion aliases.now raw label) }
    ensures err { IfErr result (IsUnexpanded aliases.now raw) }
{
    let _size = expanded_size(alloc, &raw, aliases)?;
    expand_faultless(alloc, raw, aliases)
}

/// Expands `raw`, which has no fault, as `expand_in_place` does. It is not measured again.
#[inline(always)]
pub fn expand_faultless(alloc: Global, raw: RawLabel, aliases: &Aliases) -> Result<Label, Refusal>
    requires { fault_of_meaning (expansion aliases.now raw) ≡ None }
    ensures ok { IfOk result (λ label. IsExpansion aliases.now raw label) }
    ensures err { IfErr result IsMemory }
{
    if raw.has_alias() {
        replace_aliases(alloc, &raw, aliases, 0)
    } else {
        Ok(raw.without_parentheses())
    }
}

/// Replaces the aliases of `raw` by their definitions and drops its parentheses. The label has no fault, and mostly as
/// many tree nodes as there is `room` for at once.
#[inline(never)]
fn replace_aliases(
    alloc: Global,
    raw: &RawLabel,
    aliases: &Aliases,
    room: usize,
) -> Result<Label, Refusal>
    requires { fault_of_meaning (expansion aliases.now raw.now) ≡ None }
    ensures ok { IfOk result (λ label. IsExpansion aliases.now raw.now label) }
    ensures err { IfErr result IsMemory }
{
    let mut nodes = Vec::with_capacity(alloc, room)?;
    emit(aliases, raw, aliases.len(), &mut nodes)?;
    nodes.shrink_to_fit();
    Label::from_postfix(alloc, nodes)
}

/// Returns the number of tree nodes of `raw` once expanded, with the refusals of `expand` and nothing copied.
pub fn expanded_size(alloc: Global, raw: &RawLabel, aliases: &Aliases) -> Result<u32, Refusal>
    ensures ok { IfOk result (λ size. IsExpanded aliases.now raw.now size) }
    ensures err { IfErr result (IsUnexpanded aliases.now raw.now) }
{
    let Some(extent) = aliases.measure(alloc, raw)? else {
        return Err(Refusal::Automaton(AutomatonFault::Alias));
    };
    if extent.depth > MOST_DEPTH {
        return Err(Refusal::Automaton(AutomatonFault::TooDeep));
    }
    if extent.size > MOST_SIZE {
        return Err(Refusal::Automaton(AutomatonFault::Expansion));
    }
    Ok(extent.size)
}

/// The position of the nodes that replaced an alias.
#[derive(Clone, Copy)]
struct Stretch {
    place: usize,
    start: usize,
    end: usize,
}

/// Appends the nodes of `raw` with its aliases replaced by the definitions before the index `before`. Recurses at most
/// as deep as the label is.
///
/// An alias whose nodes are kept, or that is the same as the one before it, is copied and not descended into.
pub(crate) fn emit(
    aliases: &Aliases,
    raw: &RawLabel,
    before: usize,
    out: &mut Vec<LabelNode>,
) -> Result<(), Refusal>
    requires within { before ≤ length aliases.now }
    requires defined { IsSome (replaced (take before (entries_of [] aliases.now)) raw.now) }
    ensures ok { OnOk result (out.new.items ≡ out.old.items ++
        nodes_of (replaced (take before (entries_of [] aliases.now)) raw.now)) }
    ensures err { IfErr result IsMemory }
{
    let mut names = raw.names();
    let mut last = Stretch {
        place: before,
        start: 0,
        end: 0,
    };
    let mut room = ROOM;
    let nodes = raw.nodes(&mut room);
    for node in nodes {
        match node {
            LabelNode::Group => {}
            LabelNode::Alias(count) => {
                let place = aliases.place(first_bytes(names, *count as usize));
                names = bytes_after(names, *count as usize);
                if place < before {
                    let body = aliases.body(place);
                    if let Some(kept) = aliases.kept_nodes(place) {
                        out.extend_from_slice(kept)?;
                    } else if place == last.place {
                        repeat(out, last.start, last.end)?;
                    } else {
                        let start = out.as_slice().len();
                        emit(aliases, body, place, out)?;
                        let end = out.as_slice().len();
                        last = Stretch { place, start, end };
                    }
                }
            }
            plain => out.push(*plain)?,
        }
    }
    Ok(())
}

/// Appends the nodes of `out` from `start` to `end` once more, several at a time: a few are copied faster than one by
/// one.
fn repeat(out: &mut Vec<LabelNode>, start: usize, end: usize) -> Result<(), Refusal>
    requires forward { start ≤ end }
    requires within { end ≤ length out.old.items }
    ensures ok { OnOk result (out.new.items ≡ out.old.items ++ slice_range out.old.items start end) }
    ensures err { IfErr result IsMemory }
{
    let alloc = *out.allocator();
    let mut room = Vec::with_capacity(alloc, MOST_AT_ONCE)?;
    let mut from = start;
    while from < end {
        let to = end.min(from + MOST_AT_ONCE);
        copy_through(out, &mut room, from, to)?;
        from = to;
    }
    Ok(())
}

/// Appends the nodes of `out` from `start` to `end` once more, by way of `room`, whose nodes are lost.
fn copy_through(
    out: &mut Vec<LabelNode>,
    room: &mut Vec<LabelNode>,
    start: usize,
    end: usize,
) -> Result<(), Refusal>
    requires forward { start ≤ end }
    requires within { end ≤ length out.old.items }
    ensures ok { OnOk result (out.new.items ≡ out.old.items ++ slice_range out.old.items start end) }
    ensures err { IfErr result IsMemory }
{
    room.clear();
    let nodes = out.as_slice();
    room.extend_from_slice(&nodes[start..end])?;
    out.extend_from_slice(room.as_slice())?;
    Ok(())
}
