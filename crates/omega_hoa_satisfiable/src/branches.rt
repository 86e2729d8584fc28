ghost use Rattle.std.specs.Prelude.{◌≡◌, not, if◌then◌else◌, nat_eq, IfNone, IfOk, IfSome, IsOkUnless, OnOk};
ghost use Rattle.std.specs.HashMap.{get};
ghost use Rattle.omega_hoa_satisfiable.specs.private.Pending.{IsFree};

use crate::steps::Literal;
use indexmap::IndexMap;
use omega_text::Refusal;
use std::alloc::Global;

/// A pending branch: the search goes on at `place`, under the first `count` assumptions and one more or none.
#[derive(Clone, Copy)]
pub(crate) struct Later {
    pub(crate) place: usize,
    pub(crate) count: usize,
    pub(crate) extra: Option<(u32, bool)>,
}

/// The open branches of a search: the assumptions of the current one, and the pending ones.
#[derive(Drop)]
pub(crate) struct Branches {
    assumed: IndexMap<u32, bool>,
    later: Vec<Later>,
}

impl Branches {
    ghost use Rattle.omega_hoa_satisfiable.specs.private.Branching.{ArePending, HasNoPending, HasValuation};
    ghost use Rattle.omega_hoa_satisfiable.specs.private.Branching.{IsAssumed, IsDeferred, IsExhausted};
    ghost use Rattle.omega_hoa_satisfiable.specs.private.Branching.{IsFewerTried, IsOneBranch, IsOneFewer};
    ghost use Rattle.omega_hoa_satisfiable.specs.private.Branching.{IsResumed, IsTried};

    /// Returns one branch without assumptions.
    pub(crate) fn new(alloc: Global) -> Self
        ensures leading { IsOneBranch result }
        ensures pending { ArePending result }
        ensures visited { HasNoPending result }
    {
        Branches {
            assumed: IndexMap::new(alloc),
            later: Vec::new(alloc),
        }
    }

    /// Tries `literal` and returns the place at which the search goes on.
    pub(crate) fn take(&mut self, literal: Literal) -> Result<usize, Refusal>
        requires { ArePending self.old }
        ensures ok { IfOk result (IsTried self.old self.new literal) }
        ensures visited { IfOk result (IsFewerTried self.old self.new literal) }
        ensures pending { OnOk result (ArePending self.new) }
        ensures memory { IsOkUnless result Refusal.Memory }
    {
        match self.value_of(literal.proposition) {
            Some(value) if value != literal.sign => Ok(literal.otherwise),
            Some(_) if literal.whole => Ok(literal.next),
            Some(_) => {
                self.defer(literal.otherwise, None)?;
                Ok(literal.next)
            }
            None => {
                self.defer(literal.otherwise, opposite_assumption(literal))?;
                self.assume(literal.proposition, literal.sign)?;
                Ok(literal.next)
            }
        }
    }

    /// Adds a pending branch that goes on at `place`, under the current assumptions and one more or none.
    pub(crate) fn defer(&mut self, place: usize, extra: Option<(u32, bool)>) -> Result<(), Refusal>
        requires pending { ArePending self.old }
        requires free { IsFree self.old.assumed.entries extra }
        ensures assumed { self.new.assumed ≡ self.old.assumed }
        ensures leading { OnOk result (IsDeferred self.old self.new place extra) }
        ensures visited { OnOk result (IsOneFewer self.new self.old place) }
        ensures pending { OnOk result (ArePending self.new) }
        ensures memory { IsOkUnless result Refusal.Memory }
    {
        let count = self.assumed.len();
        self.later.push(Later {
            place,
            count,
            extra,
        })?;
        Ok(())
    }

    /// Goes on with the pending branch that was added last and returns its place, or none if no branch is left.
    pub(crate) fn backtrack(&mut self) -> Result<Option<usize>, Refusal>
        requires { ArePending self.old }
        ensures some { IfOk result (λ next. IfSome next (IsResumed self.old self.new)) }
        ensures visited { IfOk result (λ next. IfSome next (IsOneFewer self.old self.new)) }
        ensures none { IfOk result (λ next. IfNone next (IsExhausted self.old)) }
        ensures pending { OnOk result (ArePending self.new) }
        ensures memory { IsOkUnless result Refusal.Memory }
    {
        let Some(next) = self.later.pop() else {
            return Ok(None);
        };
        self.assumed.truncate(next.count);
        if let Some((proposition, value)) = next.extra {
            self.assume(proposition, value)?;
        }
        Ok(Some(next.place))
    }

    /// Shows that some valuation meets all assumptions.
    pub(crate) fn has_valuation(&self)
        ensures { HasValuation self.now }
    {
        let _unique = self.assumed.len();
    }

    /// Assumes `value` for `proposition`.
    fn assume(&mut self, proposition: u32, value: bool) -> Result<(), Refusal>
        requires pending { ArePending self.old }
        requires free { get nat_eq self.old.assumed proposition ≡ None }
        ensures later { self.new.later ≡ self.old.later }
        ensures leading { OnOk result (IsAssumed self.old self.new proposition value) }
        ensures pending { OnOk result (ArePending self.new) }
        ensures memory { IsOkUnless result Refusal.Memory }
    {
        self.assumed.insert(proposition, value)?;
        Ok(())
    }

    /// Returns the value assumed for `proposition`, or none.
    fn value_of(&self, proposition: u32) -> Option<bool>
        ensures { result ≡ get nat_eq self.now.assumed proposition }
    {
        self.assumed.get(&proposition).copied()
    }
}

/// Returns the assumption under which the other branch of `literal` goes on: the opposite of `literal` if it is whole,
/// otherwise none.
fn opposite_assumption(literal: Literal) -> Option<(u32, bool)>
    ensures { result
        ≡ (if literal.whole then Some (literal.proposition, not literal.sign) else None) }
{
    if literal.whole {
        Some((literal.proposition, !literal.sign))
    } else {
        None
    }
}
