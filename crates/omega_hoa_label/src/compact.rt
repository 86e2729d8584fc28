ghost use Rattle.std.specs.Prelude.{◌≡◌, ◌≤◌, ◌++◌, [], ◌∷◌, count_by, false};
ghost use Rattle.std.specs.Prelude.{filter, length, map, take, IfErr, IfOk, IfSome};
ghost use Rattle.std.specs.List.{list_all, list_any};
ghost use Rattle.std.specs.Option.{SomeIff};
ghost use Rattle.omega_text.specs.Cases.{IsMemory};
ghost use Rattle.omega_hoa_label.specs.Bare.{is_alias, is_bare};
ghost use Rattle.omega_hoa_label.specs.private.layout.Codes.{node_of};
ghost use Rattle.omega_hoa_label.specs.private.layout.Compact.{fits_in_place, notation_in};
ghost use Rattle.omega_hoa_label.specs.private.layout.Moving.{moved_node};
ghost use Rattle.omega_hoa_label.specs.private.layout.Propositions.{proposition_below};

use crate::codes::{MOST_IN_PLACE, ROOM, code, node_of_code, unpack};
use crate::label::LabelNode;
use crate::making::node_over_propositions;
use crate::notation::{
    Notation, all_propositions_below, any_alias, count_bare, is_proposition_below, stays,
};
use crate::read_nodes::{ReadNodes, unpacked_nodes};
use omega_hoa_expression::{append, fitted_copy, with_one};
use omega_text::{Refusal, Seq};
use std::alloc::Global;
use std::marker::Model;

/// A label's notation in 24 bytes, which contracts see as that notation only. Up to 21 nodes are kept in place and take
/// no memory, a byte each, if none is an alias and the propositions are below 250.
#[derive(Debug, Drop)]
pub(crate) struct Compact {
    held: Held,
    alloc: Global,
}

/// Where the notation is kept.
#[derive(Debug, Drop)]
enum Held {
    /// In place: the depth, and the first `count` bytes, one for each node.
    Short {
        count: u8,
        depth: u8,
        codes: [u8; 21],
    },
    /// In an allocation.
    Long(Box<Notation>),
}

const _: () = prove!(std::mem::size_of::<Compact>() <= 24);

impl Model for Compact {
    ghost use Rattle.omega_hoa_label.specs.contracts.notation.Notation as notation;
    ghost use Rattle.omega_hoa_label.specs.declared.notation.Notation.{Notation};
    ghost use Rattle.omega_hoa_label.specs.private.layout.Compact.{fits_in_place, notation_in};

    ghost Value = { Notation };

    ghost coded = { notation.the_row.coded };

    ghost view = { λ c. notation_in c.held };

    ghost invariant = { λ c. fits_in_place c.held };
}

impl Compact {
    /// Copies nodes, alias names and a depth, in place or into as much memory as they need.
    #[inline(always)]
    pub(crate) fn copy_of_parts(
        alloc: Global,
        nodes: &[LabelNode],
        names: &[u8],
        depth: u32,
    ) -> Result<Self, Refusal>
        ensures ok { IfOk result
            (λ compact. compact ≡ record { nodes = nodes.now; names = names.now; depth = depth }) }
        ensures err { IfErr result IsMemory }
    {
        if let Some(held) = in_place(nodes, names, depth) {
            return Ok(Compact { held, alloc });
        }
        let notation = Notation {
            nodes: Seq::from_vec(fitted_copy(alloc, nodes)?),
            names: Seq::from_vec(fitted_copy(alloc, names)?),
            depth,
        };
        Ok(Compact {
            held: Held::Long(Box::new(alloc, notation)?),
            alloc,
        })
    }

    /// Keeps nodes that were read, alias names and a depth in place or in the memory that they have.
    #[inline(always)]
    pub(crate) fn of_read(
        alloc: Global,
        nodes: ReadNodes,
        names: Vec<u8>,
        depth: u32,
    ) -> Result<Self, Refusal>
        ensures ok { IfOk result (λ compact. compact ≡
            record { nodes = nodes; names = names.items; depth = depth }) }
        ensures err { IfErr result IsMemory }
    {
        let ReadNodes {
            codes,
            count,
            is_long,
            long,
        } = nodes;
        if is_long {
            return Compact::of_parts(alloc, long, names, depth);
        }
        if !names.is_empty() || depth > u8::MAX as u32 {
            let nodes = unpacked_nodes(alloc, &codes[..count as usize])?;
            return Compact::of_parts(alloc, nodes, names, depth);
        }
        let held = Held::Short {
            count,
            depth: depth as u8,
            codes,
        };
        Ok(Compact { held, alloc })
    }

    /// Keeps nodes, alias names and a depth in the memory that they have, without its unused part if that is large.
    #[inline(never)]
    fn of_parts(
        alloc: Global,
        nodes: Vec<LabelNode>,
        names: Vec<u8>,
        depth: u32,
    ) -> Result<Self, Refusal>
        ensures ok { IfOk result (λ compact. compact ≡
            record { nodes = nodes.items; names = names.items; depth = depth }) }
        ensures err { IfErr result IsMemory }
    {
        let mut nodes = nodes;
        nodes.shrink_to_fit();
        let mut names = names;
        if names.len() < names.capacity() / 2 {
            names.shrink_to_fit();
        }
        let notation = Notation {
            nodes: Seq::from_vec(nodes),
            names: Seq::from_vec(names),
            depth,
        };
        Ok(Compact {
            held: Held::Long(Box::new(alloc, notation)?),
            alloc,
        })
    }

    /// Keeps `notation` in place or in the memory that it has.
    pub(crate) fn of(alloc: Global, notation: Notation) -> Result<Self, Refusal>
        ensures ok { IfOk result (λ compact. compact ≡ notation) }
        ensures err { IfErr result IsMemory }
    {
        let short = in_place(
            notation.nodes.as_slice(),
            notation.names.as_slice(),
            notation.depth,
        );
        let held = match short {
            Some(held) => held,
            None => Held::Long(Box::new(alloc, notation)?),
        };
        Ok(Compact { held, alloc })
    }

    /// Returns the nodes; those kept in place are decoded into `room`.
    pub(crate) fn nodes<'a>(&'a self, room: &'a mut [LabelNode; 21]) -> &'a [LabelNode]
        ensures { result.now ≡ self.now.nodes }
    {
        match &self.held {
            Held::Short { count, codes, .. } => {
                let count = unpack(&codes[..*count as usize], room);
                &room[..count]
            }
            Held::Long(notation) => notation.nodes.as_slice(),
        }
    }

    /// Returns the alias names from left to right, joined.
    pub(crate) fn names(&self) -> &[u8]
        ensures { result.now ≡ self.now.names }
    {
        match &self.held {
            Held::Short { .. } => &[],
            Held::Long(notation) => notation.names.as_slice(),
        }
    }

    /// Returns the depth.
    pub(crate) fn depth(&self) -> u32
        ensures { result ≡ self.now.depth }
    {
        match &self.held {
            Held::Short { depth, .. } => *depth as u32,
            Held::Long(notation) => notation.depth,
        }
    }

    /// Returns the number of nodes.
    pub(crate) fn len(&self) -> usize
        ensures { result ≡ length self.now.nodes }
    {
        match &self.held {
            Held::Short { count, codes, .. } => codes[..*count as usize].len(),
            Held::Long(notation) => notation.nodes.as_slice().len(),
        }
    }

    /// Whether one of the nodes is an alias. In place there is none.
    pub(crate) fn has_alias(&self) -> bool
        ensures { result ≡ list_any is_alias self.now.nodes }
    {
        match &self.held {
            Held::Short { .. } => false,
            Held::Long(notation) => any_alias(notation.nodes.as_slice()),
        }
    }

    /// Returns the number of nodes that are no parentheses, if no node is an alias.
    pub(crate) fn bare_size(&self) -> Option<usize>
        ensures { SomeIff result (list_any is_alias self.now.nodes ≡ false)
            (count_by is_bare self.now.nodes) }
    {
        match &self.held {
            Held::Short { count, codes, .. } => Some(count_bare_codes(&codes[..*count as usize])),
            Held::Long(notation) => count_bare(notation.nodes.as_slice()),
        }
    }

    /// Whether the propositions among the nodes are all below `limit`.
    pub(crate) fn propositions_below(&self, limit: u32) -> bool
        ensures { result ≡ list_all (λ node. proposition_below limit node) self.now.nodes }
    {
        match &self.held {
            Held::Short { count, codes, .. } => all_codes_below(&codes[..*count as usize], limit),
            Held::Long(notation) => all_propositions_below(notation.nodes.as_slice(), limit),
        }
    }

    /// Returns the nodes in place over other propositions, whose numbers `places` gives. Returns none if they are not
    /// kept in place, or one of them no longer fits there. Takes no memory.
    pub(crate) fn over_propositions_in_place(&self, places: &[u32]) -> Option<Self>
        ensures { IfSome result
            (λ moved. moved.nodes ≡ map (moved_node places.now) self.now.nodes) }
    {
        match &self.held {
            Held::Short {
                count,
                depth,
                codes,
            } => {
                let codes = codes_over_propositions(&codes[..*count as usize], places)?;
                let held = Held::Short {
                    count: *count,
                    depth: *depth,
                    codes,
                };
                Some(Compact {
                    held,
                    alloc: self.alloc,
                })
            }
            Held::Long(_) => None,
        }
    }

    /// Drops the nodes of parentheses, in the memory that it has.
    #[inline(always)]
    pub(crate) fn without_parentheses(self) -> Self
        ensures { result ≡ record self { nodes = filter is_bare self.nodes } }
    {
        let Compact { held, alloc } = self;
        let held = match held {
            Held::Short {
                count,
                depth,
                codes,
            } => bare_in_place(count, depth, codes),
            Held::Long(notation) => {
                let mut notation = notation;
                notation.drop_parentheses(alloc);
                Held::Long(notation)
            }
        };
        Compact { held, alloc }
    }

    /// Moves the notation into memory of its own.
    fn into_notation(self) -> Result<Notation, Refusal>
        ensures ok { IfOk result (λ notation. notation ≡ self) }
        ensures err { IfErr result IsMemory }
    {
        let Compact { held, alloc } = self;
        match held {
            Held::Short {
                count,
                depth,
                codes,
            } => {
                let mut room = ROOM;
                let count = unpack(&codes[..count as usize], &mut room);
                Ok(Notation {
                    nodes: Seq::from_vec(fitted_copy(alloc, &room[..count])?),
                    names: Seq::new(alloc),
                    depth: depth as u32,
                })
            }
            Held::Long(notation) => Ok(Box::into_inner(notation)),
        }
    }

    /// Appends `node`, and sets the depth to `depth`.
    pub(crate) fn with_one(self, node: LabelNode, depth: u32) -> Result<Self, Refusal>
        ensures ok { IfOk result (λ more. more ≡
            record { nodes = self.nodes ++ node ∷ []; names = self.names; depth = depth }) }
        ensures err { IfErr result IsMemory }
    {
        let alloc = self.alloc;
        let notation = self.into_notation()?;
        let more = Notation {
            nodes: with_one(notation.nodes, node)?,
            names: notation.names,
            depth,
        };
        Compact::of(alloc, more)
    }

    /// Appends the nodes and names of `other` and then `operator`, and sets the depth to `depth`.
    pub(crate) fn combination(
        self,
        other: Compact,
        operator: LabelNode,
        depth: u32,
    ) -> Result<Self, Refusal>
        ensures ok { IfOk result (λ both. both ≡
            record {
              nodes = (self.nodes ++ other.nodes) ++ operator ∷ [];
              names = self.names ++ other.names;
              depth = depth;
            }) }
        ensures err { IfErr result IsMemory }
    {
        let alloc = self.alloc;
        let notation = self.into_notation()?;
        let mut nodes = notation.nodes.into_vec();
        let mut names = notation.names.into_vec();
        let mut room = ROOM;
        let others = other.nodes(&mut room);
        append(&mut nodes, &mut names, others, other.names(), operator)?;
        let both = Notation {
            nodes: Seq::from_vec(nodes),
            names: Seq::from_vec(names),
            depth,
        };
        Compact::of(alloc, both)
    }
}

/// Returns the number of bytes that do not mean parentheses.
fn count_bare_codes(codes: &[u8]) -> usize
    ensures { result ≡ count_by is_bare (map node_of codes.now) }
{
    let mut count = 0;
    for code in codes {
        if stays(node_of_code(*code)) {
            count += 1;
        }
    }
    count
}

/// Whether the propositions of `codes` are all below `limit`.
fn all_codes_below(codes: &[u8], limit: u32) -> bool
    ensures { result ≡ list_all (λ code. proposition_below limit (node_of code)) codes.now }
{
    codes.iter().all(|code| is_code_below(*code, limit))
}

/// Whether the proposition of `code` is below `limit`, if it has one.
fn is_code_below(code: u8, limit: u32) -> bool
    ensures { result ≡ proposition_below limit (node_of code) }
{
    is_proposition_below(node_of_code(code), limit)
}

/// Drops the nodes of parentheses in place. Most labels have none, and stay as they are.
#[inline(always)]
fn bare_in_place(count: u8, depth: u8, codes: [u8; 21]) -> Held
    requires { count ≤ 21 }
    ensures held { notation_in result ≡
        record { nodes = filter is_bare (map node_of (take count codes)); names = []; depth = depth } }
    ensures fits { fits_in_place result }
{
    let kept = count_bare_codes(&codes[..count as usize]);
    if kept == count as usize {
        return Held::Short {
            count,
            depth,
            codes,
        };
    }
    let (count, codes) = bare_codes(&codes[..count as usize]);
    Held::Short {
        count,
        depth,
        codes,
    }
}

/// Returns the bytes that do not mean parentheses, and their number.
#[inline(never)]
fn bare_codes(codes: &[u8]) -> (u8, [u8; 21])
    requires { length codes.now ≤ 21 }
    ensures codes { map node_of (take result.0 result.1) ≡ filter is_bare (map node_of codes.now) }
    ensures count { result.0 ≤ 21 }
{
    let mut bare = [0; 21];
    let mut count = 0;
    for code in codes {
        if stays(node_of_code(*code)) {
            bare[count as usize] = *code;
            count += 1;
        }
    }
    (count, bare)
}

/// Keeps nodes, alias names and a depth in place, if they fit.
#[inline(always)]
fn in_place(nodes: &[LabelNode], names: &[u8], depth: u32) -> Option<Held>
    ensures held { IfSome result (λ held. notation_in held ≡
        record { nodes = nodes.now; names = names.now; depth = depth }) }
    ensures fits { IfSome result fits_in_place }
{
    if !names.is_empty() || nodes.len() > MOST_IN_PLACE || depth > u8::MAX as u32 {
        return None;
    }
    let codes = codes_of(nodes)?;
    Some(Held::Short {
        count: nodes.len() as u8,
        depth: depth as u8,
        codes,
    })
}

/// Returns the bytes of `nodes`, if each has one.
#[inline(always)]
fn codes_of(nodes: &[LabelNode]) -> Option<[u8; 21]>
    requires { length nodes.now ≤ 21 }
    ensures { IfSome result (λ codes. map node_of (take (length nodes.now) codes) ≡ nodes.now) }
{
    let mut codes = [0; 21];
    for (at, node) in nodes.iter().enumerate() {
        codes[at] = code(*node)?;
    }
    Some(codes)
}

/// Returns the bytes of the nodes of `codes` over other propositions, whose numbers `places` gives, if each has one.
#[inline(always)]
fn codes_over_propositions(codes: &[u8], places: &[u32]) -> Option<[u8; 21]>
    requires { length codes.now ≤ 21 }
    ensures { IfSome result (λ moved. map node_of (take (length codes.now) moved)
        ≡ map (moved_node places.now) (map node_of codes.now)) }
{
    let mut moved = [0; 21];
    for (at, one) in codes.iter().enumerate() {
        moved[at] = code(node_over_propositions(node_of_code(*one), places))?;
    }
    Some(moved)
}
