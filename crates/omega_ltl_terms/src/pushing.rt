//! Lists of terms of which none is within another.

ghost use Rattle.std.specs.Prelude.{◌↔◌, ◌⊎◌, ◌≤◌, length, Contains, IsOkUnless, IsTrue, OnOk};
ghost use Rattle.omega_ltl_shapes.specs.Terms.{IsWithin};
ghost use Rattle.omega_ltl_shapes.specs.declared.term.Term.{Term};
ghost use Rattle.omega_ltl_terms.specs.Adding.{AddsMinimal, AreApart, HasWithin};

use crate::limits::MOST_TERMS;
use omega_ltl_shapes::Term;
use omega_text::Refusal;

/// Appends `term`, unless a term is there that is within it. Terms that it is within are dropped. A list of over
/// [MOST_TERMS] stays as it is: its user refuses it.
pub(crate) fn push_minimal(kept: &mut Vec<Term>, term: Term) -> Result<(), Refusal>
    ensures ok { OnOk result (AddsMinimal term kept.old.items kept.new.items) }
    ensures memory { IsOkUnless result Refusal.Memory }
{
    if kept.len() > MOST_TERMS || has_within(kept.as_slice(), &term) {
        return Ok(());
    }
    drop_above(kept, &term);
    kept.push(term)?;
    Ok(())
}

/// Whether some term of a list is within `term`.
fn has_within(terms: &[Term], term: &Term) -> bool
    ensures { IsTrue result ↔ HasWithin terms.now term.now }
{
    for less in terms {
        if less.is_within(term) {
            return true;
        }
    }
    false
}

/// Drops the terms that `term` is within.
fn drop_above(terms: &mut Vec<Term>, term: &Term)
    ensures old { (other : Term) → Contains terms.new.items other → Contains terms.old.items other }
    ensures kept { (other : Term) → Contains terms.old.items other
        → Contains terms.new.items other ⊎ IsWithin term.now other }
    ensures below { (other : Term) → Contains terms.new.items other → IsWithin term.now other → ⊥ }
    ensures apart { AreApart terms.old.items → AreApart terms.new.items }
    ensures short { length terms.new.items ≤ length terms.old.items }
{
    let mut at = 0;
    while at < terms.len() {
        if term.is_within(&terms[at]) {
            terms.swap_remove(at);
        } else {
            at += 1;
        }
    }
}
