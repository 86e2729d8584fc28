ghost use Rattle.std.specs.Prelude.{◌≡◌, ◌<◌, ◌≤◌, ◌+◌, [], ◌∷◌, ◌++◌, length, map, take};
ghost use Rattle.std.specs.Prelude.{vec_len, sum_by, slice_index_or, IfOk, OnOk, OnErr};
ghost use Rattle.omega_game_values.specs.private.layout.Lists.{last_list};
ghost use Rattle.omega_text.specs.JoinedLists.{list_at, lists_of};
ghost use Rattle.omega_game_values.specs.private.layout.Lists.{with_last_list};
ghost use Rattle.omega_text.specs.JoinedLists.{AreStarts};
ghost use Rattle.omega_game_values.specs.private.layout.Columns.{identifiers_of};
ghost use Rattle.omega_game_values.specs.private.layout.Resolving.{are_defined, resolved_in};
ghost use Rattle.omega_text.specs.Limits.{most_number};

use crate::resolving::resolve;
use indexmap::IndexSet;
use std::alloc::{AllocError, Global};
use std::marker::Model;

/// Lists that lie one after the other in one vector, with the start of each.
#[derive(Drop)]
pub(crate) struct Lists<T> {
    starts: Vec<u32>,
    items: Vec<T>,
}

impl<T> Model for Lists<T> {
    ghost use Rattle.std.specs.Prelude.{List, length};
    ghost use Rattle.omega_text.specs.JoinedLists.{lists_of, AreStarts};

    ghost Value = { List (List T) };

    ghost view = { λ a. lists_of a.starts.items a.items.items };

    ghost invariant = { λ a. AreStarts a.starts.items (length a.items.items) };
}

impl<T: Copy> Lists<T> {
    /// Returns no list, which takes no memory.
    pub(crate) fn new(alloc: Global) -> Self
        ensures { result ≡ [] }
    {
        Lists {
            starts: Vec::new(alloc),
            items: Vec::new(alloc),
        }
    }

    /// Returns no list, with room for that many lists with that many items in all, and for no more.
    pub(crate) fn with_room(alloc: Global, lists: usize, items: usize) -> Result<Self, AllocError>
        ensures { IfOk result (λ lists. lists ≡ []) }
    {
        let starts = Vec::with_capacity(alloc, lists)?;
        let items = Vec::with_capacity(alloc, items)?;
        Ok(Lists { starts, items })
    }

    /// Returns the lists with these starts in these items.
    pub(crate) fn from_parts(starts: Vec<u32>, items: Vec<T>) -> Self
        requires { AreStarts starts.items (length items.items) }
        ensures { result ≡ lists_of starts.items items.items }
    {
        Lists { starts, items }
    }

    /// Returns the number of lists.
    pub(crate) fn len(&self) -> usize
        ensures { result ≡ length self.now }
    {
        self.starts.len()
    }

    /// Returns the number of items of all lists together.
    pub(crate) fn total(&self) -> usize
        ensures { result ≡ sum_by (λ list. length list) self.now }
    {
        self.items.len()
    }

    /// Returns the list at an index.
    pub(crate) fn list(&self, index: usize) -> &[T]
        requires { index < length self.now }
        ensures { result.now ≡ slice_index_or self.now index [] }
    {
        list_in(self.starts.as_slice(), self.items.as_slice(), index)
    }

    /// Returns the lists at these indices, in their order: an empty one for an index without a list.
    pub(crate) fn picked_lists(
        &self,
        alloc: Global,
        order: &[usize],
    ) -> Result<Lists<T>, AllocError>
        ensures { IfOk result (λ lists. lists ≡ map (λ i. slice_index_or self.now i []) order.now) }
    {
        let mut lists = Lists::new(alloc);
        for index in order {
            if *index < self.len() {
                lists.push_list(self.list(*index))?;
            } else {
                lists.push_list(&[])?;
            }
        }
        Ok(lists)
    }

    /// Adds a list after the others. Refuses also if it would start at 2^32 or beyond: a start takes four bytes.
    pub(crate) fn push_list(&mut self, list: &[T]) -> Result<(), AllocError>
        ensures ok { OnOk result (self.new ≡ self.old ++ list.now ∷ []) }
        ensures err { OnErr result (self.new ≡ self.old) }
    {
        let start = u32::try_from(self.items.len()).map_err(|_| AllocError)?;
        self.starts.push(start)?;
        if self.items.extend_from_slice(list).is_err() {
            let _ = self.starts.pop();
            return Err(AllocError);
        }
        Ok(())
    }

    /// Adds a list of one item after the others. Refuses if `push_list` would.
    #[inline(always)]
    pub(crate) fn push_single(&mut self, item: T) -> Result<(), AllocError>
        ensures ok { OnOk result (self.new ≡ self.old ++ (item ∷ []) ∷ []) }
        ensures err { OnErr result (self.new ≡ self.old) }
    {
        let start = u32::try_from(self.items.len()).map_err(|_| AllocError)?;
        self.starts.reserve(1)?;
        self.items.push(item)?;
        let _ = self.starts.push(start);
        Ok(())
    }

    /// Adds an item to the last list.
    pub(crate) fn push_item(&mut self, item: T) -> Result<(), AllocError>
        requires { 0 < length self.old }
        ensures ok { OnOk result
            (self.new ≡ with_last_list (last_list self.old ++ item ∷ []) self.old) }
        ensures err { OnErr result (self.new ≡ self.old) }
    {
        self.items.push(item)?;
        Ok(())
    }
}

impl Lists<u8> {
    /// Replaces the last list by an item and those after it.
    pub(crate) fn replace_last(&mut self, first: u8, rest: &[u8]) -> Result<(), AllocError>
        requires { 0 < length self.old }
        ensures ok { OnOk result (self.new ≡ with_last_list (first ∷ rest.now) self.old) }
        ensures err { OnErr result (self.new ≡ self.old) }
    {
        let start = self.starts[self.starts.len() - 1] as usize;
        replace_end(&mut self.items, start, first, rest)?;
        Ok(())
    }
}

impl Lists<u32> {
    /// Replaces each identifier by its place, and returns whether each has one. An identifier without a place stays.
    pub(crate) fn resolve(&mut self, listed: &IndexSet<u32>, count: usize) -> bool
        requires { length listed.now.keys ≤ most_number + 1 }
        ensures defined { result ≡ are_defined (identifiers_of count listed.now.keys) self.old }
        ensures places { self.new
            ≡ map (map (resolved_in (identifiers_of count listed.now.keys))) self.old }
    {
        resolve(self.items.as_mut_slice(), listed, count)
    }
}

/// Replaces the items from an index on by an item and those after it.
fn replace_end(items: &mut Vec<u8>, start: usize, first: u8, rest: &[u8]) -> Result<(), AllocError>
    requires { start ≤ vec_len items.old }
    ensures ok { OnOk result (items.new.items ≡ take start items.old.items ++ (first ∷ rest.now)) }
    ensures err { OnErr result (items.new.items ≡ items.old.items) }
{
    items.reserve(rest.len() + 1)?;
    items.truncate(start);
    let _ = items.push(first);
    let _ = items.extend_from_slice(rest);
    Ok(())
}

/// Returns the list at an index of those that lie one after the other.
fn list_in<'a, T>(starts: &[u32], items: &'a [T], index: usize) -> &'a [T]
    requires within { index < length starts.now }
    requires starts { AreStarts starts.now (length items.now) }
    ensures { result.now ≡ list_at starts.now items.now index }
{
    let start = starts[index] as usize;
    let end = end_in(starts, items.len(), index);
    &items[start..end]
}

/// Returns the end of the list at an index: the start of the next one, or the number of items.
fn end_in(starts: &[u32], size: usize, index: usize) -> usize
    requires { index < length starts.now }
    ensures { result ≡ slice_index_or starts.now (index + 1) size }
{
    match starts.get(index + 1) {
        Some(next) => *next as usize,
        None => size,
    }
}
