ghost use Rattle.std.specs.Prelude.{◌≡◌, ◌<◌, ◌≤◌, ◌++◌, [], ◌∷◌, false, length, map};
ghost use Rattle.std.specs.Prelude.{option_map, IfErr, IfOk, IfSome, OnErr, OnOk};
ghost use Rattle.std.specs.List.{list_any};
ghost use Rattle.std.specs.Str.{bytes_eq};
ghost use Rattle.omega_text.specs.Cases.{IsMemory};
ghost use Rattle.omega_hoa_label_text.specs.Expanding.{IsAdded, IsRepeated, entries_of};
ghost use Rattle.omega_hoa_label_text.specs.Expanding.{expansion, extent_of, place_among};
ghost use Rattle.omega_hoa_label_text.specs.private.Emitting.{IsBodyAt, IsKept, IsKeptAt};
ghost use Rattle.omega_hoa_label_text.specs.private.Extents.{extent_named};

use crate::expansion::emit;
use crate::extents::{
    Extent, Extents, atom, extent_after_not, extent_of_operands, extent_without_aliases,
    in_parentheses,
};
use indexmap::IndexSet;
use omega_hoa_expression::{bytes_after, first_bytes};
use omega_hoa_label::{LabelNode, ROOM, RawLabel};
use omega_text::{AutomatonFault, ByteString, Refusal, Seq};
use std::alloc::Global;
use std::marker::Model;

/// The most nodes that are kept of one definition once expanded.
const MOST_KEPT_OF_ONE: u32 = 512;

/// The most nodes that are kept of all definitions once expanded, in half a megabyte.
const MOST_KEPT: usize = 65_536;

/// An alias: its name, its definition as it is written, and the depth and size of that once expanded, or none if it
/// reaches an undefined alias. If its expanded nodes are few, they are kept. So a chain of definitions is not descended
/// again for each label that names its end.
#[derive(Drop)]
pub(crate) struct Definition {
    name: ByteString,
    body: RawLabel,
    extent: Option<Extent>,
    expanded: Option<Seq<LabelNode>>,
}

/// Aliases with their definitions, in the order of their items, kept unexpanded.
///
/// An alias inside a definition means an earlier definition only.
pub struct Aliases {
    names: IndexSet<Vec<u8>>,
    definitions: Vec<Definition>,
    room: usize,
}

impl Drop for Aliases {
    fn drop(self) {
        let Aliases {
            names: _,
            definitions: _,
            room: _,
        } = self;
    }
}

impl Model for Aliases {
    ghost use Rattle.std.specs.Prelude.{List};
    ghost use Rattle.std.specs.Coded.{coded_list};
    ghost use Rattle.omega_hoa_label_text.specs.Expanding.{Defined};
    ghost use Rattle.omega_hoa_label_text.specs.private.Aliases.{IsAliases, defined_code, definitions_held};

    ghost Value = { List Defined };

    ghost coded = { coded_list defined_code };

    ghost view = { definitions_held };

    ghost invariant = { IsAliases };
}

impl Aliases {
    /// Makes an empty list of aliases, which takes no memory.
    pub fn new(alloc: Global) -> Aliases
        ensures { result ≡ [] }
    {
        Aliases {
            names: IndexSet::new(alloc),
            definitions: Vec::new(alloc),
            room: MOST_KEPT,
        }
    }

    /// Returns the number of aliases.
    pub(crate) fn len(&self) -> usize
        ensures { result ≡ length self.now }
    {
        self.definitions.len()
    }

    /// Returns the index of `name`, or the number of aliases if it is not among them.
    pub(crate) fn place(&self, name: &[u8]) -> usize
        ensures { result ≡ place_among self.now name.now }
    {
        match self.names.get_index_of(name) {
            Some(place) => place,
            None => self.len(),
        }
    }

    /// Returns the definition at `place`.
    pub(crate) fn body(&self, place: usize) -> &RawLabel
        requires { place < length self.now }
        ensures { IsBodyAt self.now place result.now }
    {
        &self.definitions[place].body
    }

    /// Returns the expanded nodes of the definition at `place`, if they are kept.
    pub(crate) fn kept_nodes(&self, place: usize) -> Option<&[LabelNode]>
        requires { place < length self.now }
        ensures { IfSome result (λ nodes. IsKeptAt self.now place nodes.now) }
    {
        match &self.definitions[place].expanded {
            Some(nodes) => Some(nodes.as_slice()),
            None => None,
        }
    }

    /// Returns the extent of the definition of `name`.
    fn extent(&self, name: &[u8]) -> Option<Extent>
        ensures { result ≡ extent_named (entries_of [] self.now) name.now }
    {
        let place = self.place(name);
        if place < self.len() {
            self.definitions[place].extent
        } else {
            None
        }
    }

    /// Returns the depth and the number of tree nodes of `raw` once expanded, an alias counting as its definition
    /// between parentheses, or `None` if it reaches an undefined alias. A label without aliases takes no memory.
    #[inline(always)]
    pub fn measure(&self, alloc: Global, raw: &RawLabel) -> Result<Option<Extent>, Refusal>
        ensures ok { IfOk result
            (λ extent. extent ≡ option_map extent_of (expansion self.now raw.now)) }
        ensures err { IfErr result IsMemory }
    {
        match raw.bare_size() {
            Some(size) => Ok(Some(extent_without_aliases(raw.depth(), size))),
            None => self.measure_nodes(alloc, raw),
        }
    }

    /// Returns the extent of `raw` once expanded, counted node by node.
    #[inline(never)]
    fn measure_nodes(&self, alloc: Global, raw: &RawLabel) -> Result<Option<Extent>, Refusal>
        ensures ok { IfOk result
            (λ extent. extent ≡ option_map extent_of (expansion self.now raw.now)) }
        ensures err { IfErr result IsMemory }
    {
        let mut stack = Extents::new(alloc);
        let mut names = raw.names();
        let mut room = ROOM;
        let nodes = raw.nodes(&mut room);
        for node in nodes {
            let extent = match node {
                LabelNode::Constant(_) | LabelNode::Proposition(_) => atom(),
                LabelNode::Alias(count) => {
                    let extent = self.extent(first_bytes(names, *count as usize));
                    names = bytes_after(names, *count as usize);
                    in_parentheses(extent)
                }
                LabelNode::Not => extent_after_not(stack.pop()),
                LabelNode::Group => in_parentheses(stack.pop()),
                LabelNode::And | LabelNode::Or => {
                    let right = stack.pop();
                    extent_of_operands(stack.pop(), right)
                }
            };
            stack.push(extent)?;
        }
        Ok(stack.pop())
    }

    /// Appends a definition under the name that labels have for it: that of a text begins with `@`. Refused with
    /// [AutomatonFault::Alias] exactly if the name is there. After a refusal all is as before, and the definition is
    /// dropped.
    pub fn add(&mut self, name: &[u8], body: RawLabel) -> Result<(), Refusal>
        ensures ok { OnOk result (IsAdded self.old name.now body self.new) }
        ensures same { OnErr result (self.new ≡ self.old) }
        ensures err { IfErr result (IsRepeated self.old name.now) }
    {
        match self.extent_and_nodes(name, &body) {
            Ok((extent, expanded)) => {
                let room = self.room_beside(&expanded);
                put_last(
                    &mut self.names,
                    &mut self.definitions,
                    name,
                    body,
                    extent,
                    expanded,
                )?;
                self.room = room;
                Ok(())
            }
            Err(refusal) => Err(refusal),
        }
    }

    /// Returns the extent of the definition `body`, and its expanded nodes if they are kept. Refused with
    /// [AutomatonFault::Alias] exactly if `name` is there.
    fn extent_and_nodes(
        &self,
        name: &[u8],
        body: &RawLabel,
    ) -> Result<(Option<Extent>, Option<Seq<LabelNode>>), Refusal>
        ensures absent { OnOk result (length self.now ≤ place_among self.now name.now) }
        ensures extent { IfOk result
            (λ made. made.0 ≡ option_map extent_of (expansion self.now body.now)) }
        ensures kept { IfOk result (λ made. IsKept made.1 (expansion self.now body.now)) }
        ensures err { IfErr result (IsRepeated self.now name.now) }
    {
        if self.place(name) < self.len() {
            return Err(Refusal::Automaton(AutomatonFault::Alias));
        }
        let alloc = *self.definitions.allocator();
        let extent = self.measure(alloc, body)?;
        let expanded = self.nodes_to_keep(alloc, body, extent)?;
        Ok((extent, expanded))
    }

    /// Returns the expanded nodes of a definition, if they are few enough to be kept. The aliases in it are kept then
    /// too, so that no definition is descended into.
    fn nodes_to_keep(
        &self,
        alloc: Global,
        body: &RawLabel,
        extent: Option<Extent>,
    ) -> Result<Option<Seq<LabelNode>>, Refusal>
        requires { extent ≡ option_map extent_of (expansion self.now body.now) }
        ensures ok { IfOk result (λ kept. IsKept kept (expansion self.now body.now)) }
        ensures err { IfErr result IsMemory }
    {
        let Some(extent) = extent else {
            return Ok(None);
        };
        if extent.size > MOST_KEPT_OF_ONE || extent.size as usize > self.room {
            return Ok(None);
        }
        let mut nodes = Vec::with_capacity(alloc, extent.size as usize)?;
        emit(self, body, self.len(), &mut nodes)?;
        Ok(Some(Seq::from_vec(nodes)))
    }

    /// Returns the number of nodes that may be kept besides `expanded`.
    fn room_beside(&self, expanded: &Option<Seq<LabelNode>>) -> usize {
        match expanded {
            Some(nodes) => self.room.saturating_sub(nodes.len()),
            None => self.room,
        }
    }
}

/// Appends a name that is not there and its definition. After [Refusal::Memory] all is as before.
fn put_last(
    names: &mut IndexSet<Vec<u8>>,
    definitions: &mut Vec<Definition>,
    name: &[u8],
    body: RawLabel,
    extent: Option<Extent>,
    expanded: Option<Seq<LabelNode>>,
) -> Result<(), Refusal>
    requires { list_any (λ key. bytes_eq name.now key.items) names.old.keys ≡ false }
    ensures names { OnOk result (map (λ key. key.items) names.new.keys ≡
        map (λ key. key.items) names.old.keys ++ name.now ∷ []) }
    ensures definitions { OnOk result (definitions.new.items ≡ definitions.old.items
        ++ record { name = name.now; body = body; extent = extent; expanded = expanded } ∷ []) }
    ensures same_names { OnErr result
        (map (λ key. key.items) names.new.keys ≡ map (λ key. key.items) names.old.keys) }
    ensures same_definitions { OnErr result (definitions.new.items ≡ definitions.old.items) }
    ensures err { IfErr result IsMemory }
{
    let alloc = *definitions.allocator();
    let copy = ByteString::from_slice(alloc, name)?;
    definitions.push(Definition {
        name: copy,
        body,
        extent,
        expanded,
    })?;
    match put_name(names, alloc, name) {
        Ok(()) => Ok(()),
        Err(refusal) => {
            definitions.pop();
            Err(refusal)
        }
    }
}

/// Appends a name that is not there. After [Refusal::Memory] all is as before.
fn put_name(names: &mut IndexSet<Vec<u8>>, alloc: Global, name: &[u8]) -> Result<(), Refusal>
    requires { list_any (λ key. bytes_eq name.now key.items) names.old.keys ≡ false }
    ensures ok { OnOk result (map (λ key. key.items) names.new.keys ≡
        map (λ key. key.items) names.old.keys ++ name.now ∷ []) }
    ensures same { OnErr result
        (map (λ key. key.items) names.new.keys ≡ map (λ key. key.items) names.old.keys) }
    ensures err { IfErr result IsMemory }
{
    let key = copy_of_bytes(alloc, name)?;
    match names.insert(key) {
        Ok(_) => Ok(()),
        Err(_) => Err(Refusal::Memory),
    }
}

/// Copies `bytes`.
fn copy_of_bytes(alloc: Global, bytes: &[u8]) -> Result<Vec<u8>, Refusal>
    ensures ok { IfOk result (λ copy. copy.items ≡ bytes.now) }
    ensures err { IfErr result IsMemory }
{
    let mut copy = Vec::new(alloc);
    copy.extend_from_slice(bytes)?;
    Ok(copy)
}
