//! Nodes in postfix order, and their names.

ghost use Rattle.std.specs.Prelude.{◌≡◌, ◌∷◌, ◌++◌, [], IfErr, IfOk, OnOk};
ghost use Rattle.omega_text.specs.Cases.{IsMemory};

use omega_text::{Refusal, Seq};
use std::alloc::Global;

/// Makes a list of `node` alone.
pub fn singleton<N: Drop>(alloc: Global, node: N) -> Result<Seq<N>, Refusal>
    ensures ok { IfOk result (λ nodes. nodes ≡ node ∷ []) }
    ensures err { IfErr result IsMemory }
{
    let mut nodes = Vec::new(alloc);
    nodes.push(node)?;
    Ok(Seq::from_vec(nodes))
}

/// Appends `node` to `nodes`.
pub fn with_one<N: Drop>(nodes: Seq<N>, node: N) -> Result<Seq<N>, Refusal>
    ensures ok { IfOk result (λ more. more ≡ nodes ++ node ∷ []) }
    ensures err { IfErr result IsMemory }
{
    let mut nodes = nodes.into_vec();
    nodes.push(node)?;
    Ok(Seq::from_vec(nodes))
}

/// Appends `others` to `nodes`.
pub fn with_all<N: Copy>(nodes: Seq<N>, others: Seq<N>) -> Result<Seq<N>, Refusal>
    ensures ok { IfOk result (λ more. more ≡ nodes ++ others) }
    ensures err { IfErr result IsMemory }
{
    let mut nodes = nodes.into_vec();
    nodes.extend_from_slice(others.as_slice())?;
    Ok(Seq::from_vec(nodes))
}

/// Appends the nodes and names of another part, and then `operator`.
pub fn append<N: Copy + Drop>(
    nodes: &mut Vec<N>,
    names: &mut Vec<u8>,
    others: &[N],
    more: &[u8],
    operator: N,
) -> Result<(), Refusal>
    ensures nodes { OnOk result (nodes.new.items ≡ (nodes.old.items ++ others.now) ++ operator ∷ []) }
    ensures names { OnOk result (names.new.items ≡ names.old.items ++ more.now) }
    ensures err { IfErr result IsMemory }
{
    nodes.extend_from_slice(others)?;
    nodes.push(operator)?;
    names.extend_from_slice(more)?;
    Ok(())
}

/// Copies `nodes` into as much memory as they need.
pub fn fitted_copy<N: Copy>(alloc: Global, nodes: &[N]) -> Result<Vec<N>, Refusal>
    ensures ok { IfOk result (λ copy. copy.items ≡ nodes.now) }
    ensures err { IfErr result IsMemory }
{
    let mut copy = Vec::with_capacity(alloc, nodes.len())?;
    copy.extend_from_slice(nodes)?;
    Ok(copy)
}
