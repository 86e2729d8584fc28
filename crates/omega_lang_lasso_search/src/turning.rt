//! A lasso with its stem shortened by the edges that it shares with the end of the cycle.
ghost use Rattle.std.specs.Prelude.{◌≡◌, ◌-◌, ◌≤◌, ℕ, IfOk, IsOkUnless, drop, length};
ghost use Rattle.omega_hoa_automaton.specs.Automaton.{Description};
ghost use Rattle.omega_lang_runs.specs.Lasso.{IsAcceptingLasso};
ghost use Rattle.omega_lang_runs.specs.Verdict.{IsVerdict};

use omega_hoa_automaton::{Refusal, Seq};
use omega_lang_runs::Verdict;
use std::alloc::Global;

/// Returns the lasso that enters its cycle as early as its stem comes to it: the longest common suffix of `stem` and
/// `cycle` is taken out of the stem, and the cycle begins with it. Linear.
pub(crate) fn shortest_lasso(alloc: Global, stem: &[u32], cycle: &[u32]) -> Result<Verdict, Refusal>
    ensures verdict { (a : Description) → IsAcceptingLasso a stem.now cycle.now
        → IfOk result (IsVerdict a) }
    ensures memory { IsOkUnless result Refusal.Memory }
{
    let shared = shared_end(stem, cycle);
    let entry = cycle.len() - shared;
    let mut around = Vec::from_slice(alloc, &cycle[entry..])?;
    around.extend_from_slice(&cycle[..entry])?;
    let before = Vec::from_slice(alloc, &stem[..stem.len() - shared])?;
    Ok(Verdict::Lasso {
        stem: Seq::from_vec(before),
        cycle: Seq::from_vec(around),
    })
}

/// Returns the length of the longest common suffix of `stem` and `cycle`.
fn shared_end(stem: &[u32], cycle: &[u32]) -> usize
    ensures stem { result ≤ length stem.now }
    ensures cycle { result ≤ length cycle.now }
    ensures same { drop (length stem.now - result) stem.now
        ≡ drop (length cycle.now - result) cycle.now }
{
    let most = stem.len().min(cycle.len());
    let mut shared = 0;
    while shared < most && stem[stem.len() - shared - 1] == cycle[cycle.len() - shared - 1] {
        shared += 1;
    }
    shared
}
