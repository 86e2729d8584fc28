ghost use Rattle.std.specs.Prelude.{◌≡◌, ◌<◌, [], ◌∷◌, ◌++◌, IfOk, IfSome};
ghost use Rattle.std.specs.Prelude.{OnErr, OnOk, length, map, slice_index_or};
ghost use Rattle.omega_hoa_syntax.specs.Edges.{edges_in, edges_seen, lengthened};

use crate::raw_edge::RawEdge;
use crate::raw_edge_ref::RawEdgeRef;
use crate::short_edge::ShortEdge;
use omega_text::{Marks, Numbers, Seq};
use std::alloc::{AllocError, Global};
use std::marker::Model;

/// The greatest number of edges that are moved if they do not need all the memory that they have.
const MOST_MOVED: usize = 64;

/// The edges of a state in the order written. Contracts see the list of edges.
///
/// If all of them are short they take 12 bytes each, else 64.
#[derive(Debug)]
pub struct RawEdges {
    held: Held,
}

impl Drop for RawEdges {
    fn drop(self) {
        let RawEdges { held: _ } = self;
    }
}

/// How the edges are kept in memory.
#[derive(Debug, Drop)]
enum Held {
    /// In compact form.
    Short(Vec<ShortEdge>),
    /// As they are.
    Full(Vec<RawEdge>),
}

/// The edges of a state, taken apart.
#[derive(Debug, Drop)]
pub enum HeldEdges {
    /// In compact form.
    Short(Seq<ShortEdge>),
    /// As they are.
    Full(Seq<RawEdge>),
}

/// The edges of a state as they are kept in memory.
#[derive(Clone, Copy)]
pub enum EdgeSlice<'a> {
    /// In compact form.
    Short(&'a [ShortEdge]),
    /// As they are.
    Full(&'a [RawEdge]),
}

impl Model for RawEdges {
    ghost use Rattle.std.specs.Prelude.{List};
    ghost use Rattle.std.specs.Coded.{codes};
    ghost use Rattle.omega_hoa_label.specs.contracts.raw.RawLabel as raw_label;
    ghost use Rattle.omega_hoa_syntax.specs.declared.raw_edge.RawEdge.{RawEdge};

    ghost Value = { List RawEdge };

    ghost coded = { Prim.hlevel (codes, raw_label.the_row.coded) };

    ghost use Rattle.omega_hoa_syntax.specs.private.layout.Edges.{held_edges};

    ghost view = { λ e. held_edges e.held };
}

impl RawEdges {
    /// Makes an empty list, which takes no memory.
    pub fn new(alloc: Global) -> RawEdges
        ensures { result ≡ [] }
    {
        RawEdges {
            held: Held::Short(Vec::new(alloc)),
        }
    }

    /// Appends `edge`. The first edge that is not short makes the list keep all before it in full. Returns an error if
    /// a request for memory is refused, and the edges are then as before.
    #[inline(always)]
    pub fn push(&mut self, alloc: Global, edge: RawEdge) -> Result<(), AllocError>
        ensures ok { OnOk result (self.new ≡ self.old ++ edge ∷ []) }
        ensures err { OnErr result (self.new ≡ self.old) }
    {
        let short = short_of(&edge);
        match (&mut self.held, short) {
            (Held::Short(edges), Some(short)) => edges.push(short)?,
            (Held::Short(edges), None) => {
                let mut full = full_edges(alloc, edges.as_slice())?;
                full.push(edge)?;
                self.held = Held::Full(full);
            }
            (Held::Full(edges), _) => edges.push(edge)?,
        }
        Ok(())
    }

    /// Moves the edges into as much memory as they need.
    pub fn fitted_edges(self, alloc: Global) -> Result<RawEdges, AllocError>
        ensures { IfOk result (λ same. same ≡ self) }
    {
        let RawEdges { held } = self;
        let held = match held {
            Held::Short(edges) => Held::Short(fitted_values(alloc, edges)?),
            Held::Full(edges) => Held::Full(fitted_values(alloc, edges)?),
        };
        Ok(RawEdges { held })
    }

    /// Returns the number of edges.
    pub fn len(&self) -> usize
        ensures { result ≡ length self.now }
    {
        match &self.held {
            Held::Short(edges) => edges.len(),
            Held::Full(edges) => edges.len(),
        }
    }

    /// Returns the edge at the index `at`, from 0.
    pub fn edge(&self, at: usize) -> RawEdgeRef<'_>
        requires { at < length self.now }
        ensures { result ≡ slice_index_or self.now at result }
    {
        match &self.held {
            Held::Short(edges) => short_edge(&edges[at]),
            Held::Full(edges) => full_edge(&edges[at]),
        }
    }

    /// Returns the edges as they are kept in memory, for a pass over all of them.
    pub fn slice(&self) -> EdgeSlice<'_>
        ensures { edges_seen result ≡ self.now }
    {
        match &self.held {
            Held::Short(edges) => EdgeSlice::Short(edges.as_slice()),
            Held::Full(edges) => EdgeSlice::Full(edges.as_slice()),
        }
    }

    /// Returns the edges as they are kept in memory.
    pub fn into_held(self) -> HeldEdges
        ensures { edges_in result ≡ self }
    {
        let RawEdges { held } = self;
        match held {
            Held::Short(edges) => HeldEdges::Short(Seq::from_vec(edges)),
            Held::Full(edges) => HeldEdges::Full(Seq::from_vec(edges)),
        }
    }
}

/// Moves `values` into as much memory as they need. A few are moved and not shrunk in place: the memory that is left
/// after a short list is mostly too small to be used again.
fn fitted_values<T: Drop>(alloc: Global, values: Vec<T>) -> Result<Vec<T>, AllocError>
    ensures { IfOk result (λ same. same.items ≡ values.items) }
{
    let mut values = values;
    if values.len() == values.capacity() {
        return Ok(values);
    }
    if MOST_MOVED < values.len() {
        values.shrink_to_fit();
        return Ok(values);
    }
    let mut same = Vec::with_capacity(alloc, values.len())?;
    same.append(&mut values)?;
    Ok(same)
}

/// Copies `edges` in full.
fn full_edges(alloc: Global, edges: &[ShortEdge]) -> Result<Vec<RawEdge>, AllocError>
    ensures { IfOk result (λ full. full.items ≡ map lengthened edges.now) }
{
    let mut full = Vec::new(alloc);
    for edge in edges {
        full.push(as_it_is(edge))?;
    }
    Ok(full)
}

/// Returns the edge in full.
fn as_it_is(edge: &ShortEdge) -> RawEdge
    ensures { result ≡ lengthened edge.now }
{
    let marks = match edge.mark {
        Some(mark) => Marks::of(Numbers::one(mark)),
        None => Marks::absent(),
    };
    RawEdge {
        label: None,
        targets: Numbers::one(edge.target),
        marks,
    }
}

/// Returns `edge` in compact form, or none if it is not short.
#[inline(always)]
fn short_of(edge: &RawEdge) -> Option<ShortEdge>
    ensures { IfSome result (λ short. lengthened short ≡ edge.now) }
{
    if edge.label.is_some() {
        return None;
    }
    let mark = match edge.marks.as_slice() {
        None => None,
        Some([mark]) => Some(*mark),
        Some(_) => return None,
    };
    match edge.targets.as_slice() {
        [target] => Some(ShortEdge {
            target: *target,
            mark,
        }),
        _ => None,
    }
}

/// Returns the edge that is kept in compact form.
fn short_edge(edge: &ShortEdge) -> RawEdgeRef<'_>
    ensures { result ≡ lengthened edge.now }
{
    let marks = match &edge.mark {
        Some(mark) => Some(std::slice::from_ref(mark)),
        None => None,
    };
    RawEdgeRef {
        label: None,
        targets: std::slice::from_ref(&edge.target),
        marks,
    }
}

/// Returns the edge that is kept in full.
fn full_edge(edge: &RawEdge) -> RawEdgeRef<'_>
    ensures { result ≡ edge.now }
{
    RawEdgeRef {
        label: edge.label.as_ref(),
        targets: edge.targets.as_slice(),
        marks: edge.marks.as_slice(),
    }
}
