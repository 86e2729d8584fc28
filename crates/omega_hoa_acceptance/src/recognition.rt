//! The acceptance kind of a name, a count of sets and a formula.

ghost use Rattle.std.specs.Prelude.{◌≡◌, ◌<◌, ◌≤◌, ◌↔◌, List, [], ◌∷◌, ◌++◌};
ghost use Rattle.std.specs.Prelude.{IfErr, IfNone, IfOk, IfSome, IsTrue};
ghost use Rattle.omega_hoa_parity_kind.specs.declared.kind.ParityKind.{ParityKind};
ghost use Rattle.omega_hoa_acceptance.specs.Kind.{buchi_formula, first_left, parity_formula, without_sets};
ghost use Rattle.omega_hoa_acceptance.specs.Names.{IsAcceptanceRow, IsNotParity, IsParityRow, buchi_named};
ghost use Rattle.omega_hoa_acceptance.specs.Names.{oddness_named, order_named, parity_named, short_named};
ghost use Rattle.omega_hoa_acceptance.specs.declared.formula.AccNode.{AccNode};
ghost use Rattle.omega_hoa_acceptance.specs.declared.kind.AccKind.{AccKind};
ghost use Rattle.omega_hoa_acceptance.specs.private.layout.Acceptance.{acc_postfix};
ghost use Rattle.omega_hoa_acceptance.specs.private.layout.Chain.{atom_node, joining_node};

use crate::formula::{Acc, AccNode};
use crate::kind::AccKind;
use crate::name::{AccName, Parameter};
use omega_hoa_expression::MOST_BUCHI_SETS;
use omega_hoa_parity_kind::{Order, Parity, ParityKind};
use omega_text::{Refusal, TaskFault};

/// Returns the parity kind of `name`, `count` sets and `formula`: `all`, `none`, `Buchi`, `co-Buchi` or `parity` with
/// its formula (HOA v1, acceptance names). Any other is refused with [TaskFault::NotParity].
///
/// Takes no memory. Walks over the formula only, however large the count is.
pub fn parity_of(name: &AccName, count: u32, formula: &Acc) -> Result<ParityKind, Refusal>
    ensures ok { IfOk result (λ kind. IsParityRow name.now count formula.now kind) }
    ensures err { IfErr result
        (IsNotParity ((kind : ParityKind) → IsParityRow name.now count formula.now kind → ⊥)) }
{
    if let Some(kind) = named_kind(name) {
        if kind.count == count && is_parity_formula(kind, formula.nodes()) {
            return Ok(kind);
        }
    }
    Err(Refusal::Task(TaskFault::NotParity))
}

/// Returns the acceptance kind of `name`, `count` sets and `formula`: a parity kind, or `generalized-Buchi` with 1 to
/// 16 sets. Any other is refused with [TaskFault::NotParity]. Takes no memory.
pub fn acceptance_kind(name: &AccName, count: u32, formula: &Acc) -> Result<AccKind, Refusal>
    ensures ok { IfOk result (λ kind. IsAcceptanceRow name.now count formula.now kind) }
    ensures err { IfErr result
        (IsNotParity ((kind : AccKind) → IsAcceptanceRow name.now count formula.now kind → ⊥)) }
{
    if let Some(sets) = named_sets(name) {
        if sets == count
            && 1 <= sets
            && sets <= MOST_BUCHI_SETS
            && is_buchi_formula(sets, formula.nodes())
        {
            return Ok(AccKind::GenBuchi(sets));
        }
    }
    match parity_of(name, count, formula) {
        Ok(kind) => Ok(AccKind::Parity(kind)),
        Err(_) => Err(Refusal::Task(TaskFault::NotParity)),
    }
}

/// Whether `formula` says that each of `sets` sets recurs: `t` if there are none, and else `Inf(0)&Inf(1)&..`, grouped
/// to the left, as `all`, `Buchi` and `generalized-Buchi` have it (HOA v1, acceptance names). Takes no memory, and
/// walks over the formula only.
pub fn is_buchi(sets: u32, formula: &Acc) -> bool
    ensures { IsTrue result ↔ (formula.now ≡ buchi_formula sets) }
{
    is_recurrence(sets, formula.nodes())
}

/// Whether `nodes` are the formula in which each of `sets` sets recurs.
fn is_recurrence(sets: u32, nodes: &[AccNode]) -> bool
    ensures { IsTrue result ↔ (nodes.now ≡ acc_postfix (buchi_formula sets)) }
{
    if sets == 0 {
        is_alone(nodes, AccNode::Constant(true))
    } else {
        is_buchi_formula(sets, nodes)
    }
}

/// Returns the parity kind that `name` names.
fn named_kind(name: &AccName) -> Option<ParityKind>
    ensures { result ≡ parity_named name.now.name name.now.parameters }
{
    match name.parameters.as_slice() {
        [] => short_kind(name.name.as_slice()),
        [
            Parameter::Word(order),
            Parameter::Word(parity),
            Parameter::Number(count),
        ] => {
            if name.name.as_slice() != b"parity".as_slice() {
                return None;
            }
            let order = order_of(order.as_slice())?;
            let parity = oddness_of(parity.as_slice())?;
            Some(ParityKind {
                order,
                parity,
                count: *count,
            })
        }
        _ => None,
    }
}

/// Returns the count of sets of a generalized Büchi name.
fn named_sets(name: &AccName) -> Option<u32>
    ensures { result ≡ buchi_named name.now.name name.now.parameters }
{
    match name.parameters.as_slice() {
        [Parameter::Number(count)] => {
            if name.name.as_slice() == b"generalized-Buchi".as_slice() {
                Some(*count)
            } else {
                None
            }
        }
        _ => None,
    }
}

/// Returns the parity kind of a name without parameters.
fn short_kind(name: &[u8]) -> Option<ParityKind>
    ensures { result ≡ short_named name.now }
{
    if name == b"all".as_slice() {
        return Some(max_kind(Parity::Odd, 0));
    }
    if name == b"none".as_slice() {
        return Some(max_kind(Parity::Even, 0));
    }
    if name == b"Buchi".as_slice() {
        return Some(max_kind(Parity::Even, 1));
    }
    if name == b"co-Buchi".as_slice() {
        return Some(max_kind(Parity::Odd, 1));
    }
    None
}

/// Makes a kind in which the greatest mark decides.
fn max_kind(parity: Parity, count: u32) -> ParityKind
    ensures { result ≡ record { order = Order.Max; parity = parity; count = count } }
{
    ParityKind {
        order: Order::Max,
        parity,
        count,
    }
}

/// Returns the order that `word` names.
fn order_of(word: &[u8]) -> Option<Order>
    ensures { result ≡ order_named word.now }
{
    if word == b"max".as_slice() {
        return Some(Order::Max);
    }
    if word == b"min".as_slice() {
        return Some(Order::Min);
    }
    None
}

/// Returns the parity that `word` names.
fn oddness_of(word: &[u8]) -> Option<Parity>
    ensures { result ≡ oddness_named word.now }
{
    if word == b"even".as_slice() {
        return Some(Parity::Even);
    }
    if word == b"odd".as_slice() {
        return Some(Parity::Odd);
    }
    None
}

/// Whether `nodes` are the parity formula of `kind`. Stops at the first node that differs.
fn is_parity_formula(kind: ParityKind, nodes: &[AccNode]) -> bool
    ensures { IsTrue result ↔ (nodes.now ≡ acc_postfix (parity_formula kind)) }
{
    if kind.count == 0 {
        return is_alone(nodes, without_sets(kind));
    }
    let mut rest = nodes;
    let mut following = kind.count - 1;
    while following > 0 {
        let Some(others) = without_first(rest, atom_of(kind, following)) else {
            return false;
        };
        let Some(middle) = without_last(others, joining_of(kind, following)) else {
            return false;
        };
        rest = middle;
        following -= 1;
    }
    is_alone(rest, atom_of(kind, 0))
}

/// Whether `nodes` are the generalized Büchi formula of `sets` sets, at least one.
fn is_buchi_formula(sets: u32, nodes: &[AccNode]) -> bool
    requires { 1 ≤ sets }
    ensures { IsTrue result ↔ (nodes.now ≡ acc_postfix (buchi_formula sets)) }
{
    let mut rest = nodes;
    let mut set = sets - 1;
    while set > 0 {
        let Some(others) = without_last(rest, AccNode::And) else {
            return false;
        };
        let Some(front) = without_last(others, AccNode::Inf(false, set)) else {
            return false;
        };
        rest = front;
        set -= 1;
    }
    is_alone(rest, AccNode::Inf(false, 0))
}

/// Returns the nodes after the first one, if that is `node`.
fn without_first(nodes: &[AccNode], node: AccNode) -> Option<&[AccNode]>
    ensures some { IfSome result (λ rest. nodes.now ≡ node ∷ rest.now) }
    ensures none { IfNone result ((rest : List AccNode) → nodes.now ≡ node ∷ rest → ⊥) }
{
    let first = *nodes.first()?;
    if is_node(first, node) {
        Some(&nodes[1..])
    } else {
        None
    }
}

/// Returns the nodes before the last one, if that is `node`.
fn without_last(nodes: &[AccNode], node: AccNode) -> Option<&[AccNode]>
    ensures some { IfSome result (λ rest. nodes.now ≡ rest.now ++ node ∷ []) }
    ensures none { IfNone result ((rest : List AccNode) → nodes.now ≡ rest ++ node ∷ [] → ⊥) }
{
    let last = *nodes.last()?;
    if is_node(last, node) {
        Some(&nodes[..nodes.len() - 1])
    } else {
        None
    }
}

/// Whether `nodes` are `node` alone.
fn is_alone(nodes: &[AccNode], node: AccNode) -> bool
    ensures { IsTrue result ↔ (nodes.now ≡ node ∷ []) }
{
    match nodes {
        [only] => is_node(*only, node),
        _ => false,
    }
}

/// Whether two nodes are the same.
fn is_node(one: AccNode, other: AccNode) -> bool
    ensures { IsTrue result ↔ (one ≡ other) }
{
    one == other
}

/// Returns the node of a parity formula without sets.
fn without_sets(kind: ParityKind) -> AccNode
    ensures { result ≡ AccNode.Constant (without_sets kind.order kind.parity) }
{
    match (kind.order, kind.parity) {
        (Order::Max, Parity::Even) | (Order::Min, Parity::Odd) => AccNode::Constant(false),
        (Order::Max, Parity::Odd) | (Order::Min, Parity::Even) => AccNode::Constant(true),
    }
}

/// Returns the set after which `following` sets are left.
fn set_of(kind: ParityKind, following: u32) -> u32
    requires { following < kind.count }
    ensures { result ≡ first_left kind.order kind.count following }
{
    match kind.order {
        Order::Max => following,
        Order::Min => kind.count - 1 - following,
    }
}

/// Returns the node of the atom of the set after which `following` sets are left.
fn atom_of(kind: ParityKind, following: u32) -> AccNode
    requires { following < kind.count }
    ensures { result ≡ atom_node kind.parity (first_left kind.order kind.count following) }
{
    let set = set_of(kind, following);
    if kind.parity.has(set) {
        AccNode::Inf(false, set)
    } else {
        AccNode::Fin(false, set)
    }
}

/// Returns the node that joins this atom to the sets after it.
fn joining_of(kind: ParityKind, following: u32) -> AccNode
    requires { following < kind.count }
    ensures { result ≡ joining_node kind.parity (first_left kind.order kind.count following) }
{
    if kind.parity.has(set_of(kind, following)) {
        AccNode::Or
    } else {
        AccNode::And
    }
}
