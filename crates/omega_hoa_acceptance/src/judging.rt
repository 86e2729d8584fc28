//! Whether a formula holds, if it is known which of its atoms do.

ghost use Rattle.std.specs.Prelude.{◌≡◌, Bool, IfErr, IfOk, [], ℕ};
ghost use Rattle.omega_text.specs.Cases.{IsMemory};
ghost use Rattle.omega_hoa_acceptance.specs.Judging.{holds_by_atoms};
ghost use Rattle.omega_hoa_acceptance.specs.private.layout.Judged.{top_truth, truths_after};

use crate::formula::{Acc, AccNode};
use crate::truths::Truths;
use omega_text::Refusal;
use std::alloc::Global;

/// Says which atoms of acceptance formulas hold.
pub trait AtomJudge {
    /// What has to hold of a judge that is asked.
    ghost can_judge: { Self → Type 0 };

    /// Whether `Inf` of a set holds, with `!` before the set or without.
    ghost infs: { Self → Bool → ℕ → Bool };

    /// Whether `Fin` of a set holds, with `!` before the set or without.
    ghost fins: { Self → Bool → ℕ → Bool };

    /// Whether `Inf` of `set` holds, with `!` before the set if `negated`.
    fn inf_holds(&self, negated: bool, set: u32) -> bool
        requires { can_judge self.now }
        ensures { result ≡ infs self.now negated set };

    /// Whether `Fin` of `set` holds, with `!` before the set if `negated`.
    fn fin_holds(&self, negated: bool, set: u32) -> bool
        requires { can_judge self.now }
        ensures { result ≡ fins self.now negated set };
}

impl Acc {
    /// Whether the formula holds of the atoms that `judge` says hold. Asks `judge` once for each atom. Linear in the
    /// formula, without recursion, and takes no memory if no more than 64 parts are pending.
    pub fn holds_by<J: AtomJudge>(&self, alloc: Global, judge: &J) -> Result<bool, Refusal>
        requires { J.can_judge judge.now }
        ensures ok { IfOk result
            (λ holds. holds ≡ holds_by_atoms (J.infs judge.now) (J.fins judge.now) self.now) }
        ensures err { IfErr result IsMemory }
    {
        truth_of(alloc, self.nodes(), judge)
    }
}

/// Returns the truth value that `nodes` in postfix order leave.
fn truth_of<J: AtomJudge>(alloc: Global, nodes: &[AccNode], judge: &J) -> Result<bool, Refusal>
    requires { J.can_judge judge.now }
    ensures ok { IfOk result (λ truth. truth ≡
        top_truth (truths_after (J.infs judge.now) (J.fins judge.now) [] nodes.now)) }
    ensures err { IfErr result IsMemory }
{
    let mut truths = Truths::new(alloc);
    for node in nodes {
        let truth = match node {
            AccNode::Constant(value) => *value,
            AccNode::Inf(negated, set) => judge.inf_holds(*negated, *set),
            AccNode::Fin(negated, set) => judge.fin_holds(*negated, *set),
            AccNode::And => {
                let right = truths.pop();
                let left = truths.pop();
                left && right
            }
            AccNode::Or => {
                let right = truths.pop();
                let left = truths.pop();
                left || right
            }
        };
        truths.push(truth)?;
    }
    Ok(truths.pop())
}
