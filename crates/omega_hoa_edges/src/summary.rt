//! What is known of a label before it is judged together with others, so that most pairs are judged without it.

ghost use Rattle.std.specs.Prelude.{◌≡◌, ◌<◌, ◌↔◌, IfErr, IfOk, IfSome, IsOkUnless, IsTrue, OnOk};
ghost use Rattle.omega_hoa_expression.specs.Limits.{most_depth};
ghost use Rattle.omega_hoa_label.specs.Label.{LabelTree, conjunction, label_depth};
ghost use Rattle.omega_hoa_label.specs.Shape.{FitsALabel};
ghost use Rattle.omega_hoa_satisfiable.specs.Literals.{AreLiteralsOf};
ghost use Rattle.omega_hoa_satisfiable.specs.Satisfiable.{IsSatisfiable};
ghost use Rattle.omega_hoa_satisfiable.specs.Tables.{IsWideTable};
ghost use Rattle.omega_hoa_edges.specs.Fitting.{IsUnjudged};
ghost use Rattle.omega_hoa_edges.specs.Summaries.{IsSummaryOf};

use crate::can_hold_together;
use omega_hoa_expression::{MOST_DEPTH, MOST_SIZE};
use omega_hoa_label::Label;
use omega_hoa_satisfiable::{Literals, TruthTable, WideTable};
use omega_text::Refusal;
use std::alloc::Global;

/// What is known of a label: its literals, if it is a conjunction of them, or else a truth table, if it mentions few
/// propositions.
#[derive(Debug)]
pub struct LabelSummary {
    size: usize,
    /// Whether its conjunction with a label as shallow is not too deep.
    is_shallow: bool,
    literals: Option<Literals>,
    table: Option<TruthTable>,
    wide: Option<WideTable>,
}

impl Drop for LabelSummary {
    fn drop(self) {
        let LabelSummary {
            size: _,
            is_shallow: _,
            literals: _,
            table: _,
            wide: _,
        } = self;
    }
}

impl LabelSummary {
    /// Summarizes `label`. Linear in the label, but for the wide table of one that is no conjunction of literals and
    /// mentions propositions from six to eleven, which takes as long as `WideTable::of`.
    pub fn of(alloc: Global, label: &Label) -> Result<LabelSummary, Refusal>
        ensures summary { IfOk result (IsSummaryOf label.now) }
        ensures memory { IsOkUnless result Refusal.Memory }
    {
        let is_shallow = is_shallow(alloc, label)?;
        let literals = Literals::of(label);
        if literals.is_some() {
            return Ok(LabelSummary {
                size: label.size(),
                is_shallow,
                literals,
                table: None,
                wide: None,
            });
        }
        let table = TruthTable::of(label);
        let wide = wide_table(alloc, label, table.is_some())?;
        Ok(LabelSummary {
            size: label.size(),
            is_shallow,
            literals,
            table,
            wide,
        })
    }

    /// Returns the literals of a label of this summary, if it is known to be a conjunction of them.
    pub fn literals(&self) -> Option<Literals>
        ensures { (label : LabelTree) → IsSummaryOf label self.now
            → IfSome result (AreLiteralsOf label) }
    {
        self.literals
    }

    /// Whether a label of this summary and one of `other` can be true together, if the summaries decide it.
    fn meets(&self, other: &LabelSummary) -> Option<bool>
        ensures { IfSome result (λ possible. (one : LabelTree) (another : LabelTree)
            → IsSummaryOf one self.now → IsSummaryOf another other.now
            → IsTrue possible ↔ IsSatisfiable (conjunction one another)) }
    {
        if let Some(literals) = self.literals {
            if let Some(literals_of_other) = other.literals {
                return Some(literals.meets(literals_of_other));
            }
        }
        if let Some(table) = self.table {
            if let Some(table_of_other) = other.table {
                return Some(table.meets(table_of_other));
            }
        }
        let wide = self.wide.as_ref()?;
        let wide_of_other = other.wide.as_ref()?;
        Some(wide.meets(wide_of_other))
    }

    /// Whether a label of this summary and `label` can be true together, if a wide truth table decides it.
    fn meets_label(&self, label: &Label) -> Option<bool>
        ensures { IfSome result (λ possible. (one : LabelTree) → IsSummaryOf one self.now
            → IsTrue possible ↔ IsSatisfiable (conjunction one label.now)) }
    {
        let wide = self.wide.as_ref()?;
        wide.meets_label(label)
    }

    /// Whether the conjunction of two labels of these summaries is neither too deep nor too large.
    fn fits_with(&self, other: &LabelSummary) -> bool
        ensures { IsTrue result → (one : LabelTree) (another : LabelTree) → IsSummaryOf one self.now
            → IsSummaryOf another other.now → FitsALabel (conjunction one another) }
    {
        self.is_shallow
            && other.is_shallow
            && self.size < MOST_SIZE as usize / 2
            && other.size < MOST_SIZE as usize / 2
    }
}

/// Whether two labels, of which the summaries are known, can be true together. Fails as [`can_hold_together`] does.
///
/// Two conjunctions of literals over the propositions below 64 are judged by their bits, and two labels that mention no
/// proposition from twelve on by truth tables. Only others are looked at again.
pub fn can_summaries_meet(
    alloc: Global,
    one: &Label,
    summary: &LabelSummary,
    other: &Label,
    summary_of_other: &LabelSummary,
) -> Result<bool, Refusal>
    requires one { IsSummaryOf one.now summary.now }
    requires other { IsSummaryOf other.now summary_of_other.now }
    ensures judged { IfOk result
        (λ possible. IsTrue possible ↔ IsSatisfiable (conjunction one.now other.now)) }
    ensures fits { OnOk result (FitsALabel (conjunction one.now other.now)) }
    ensures err { IfErr result (IsUnjudged (conjunction one.now other.now)) }
{
    if summary.fits_with(summary_of_other) {
        if let Some(possible) = summaries_meet(one, summary, other, summary_of_other) {
            return Ok(possible);
        }
    }
    can_hold_together(alloc, one, other)
}

/// Whether two labels, of which the summaries are known, can be true together, if one of these decides it.
fn summaries_meet(
    one: &Label,
    summary: &LabelSummary,
    other: &Label,
    summary_of_other: &LabelSummary,
) -> Option<bool>
    requires one { IsSummaryOf one.now summary.now }
    requires other { IsSummaryOf other.now summary_of_other.now }
    ensures { IfSome result
        (λ possible. IsTrue possible ↔ IsSatisfiable (conjunction one.now other.now)) }
{
    if let Some(possible) = summary.meets(summary_of_other) {
        return Some(possible);
    }
    if let Some(possible) = summary.meets_label(other) {
        return Some(possible);
    }
    summary_of_other.meets_label(one)
}

/// Returns the wide truth table of `label`, unless it has another one, or none if it mentions a proposition from twelve
/// on.
fn wide_table(alloc: Global, label: &Label, has_table: bool) -> Result<Option<WideTable>, Refusal>
    ensures table { IfOk result (λ table. IfSome table (IsWideTable label.now)) }
    ensures memory { IsOkUnless result Refusal.Memory }
{
    if has_table {
        return Ok(None);
    }
    WideTable::of(alloc, label)
}

/// Whether `label` is known to be less deep than the limit. Linear in it, and takes no memory if it has fewer atoms and
/// operators than that.
fn is_shallow(alloc: Global, label: &Label) -> Result<bool, Refusal>
    ensures shallow { IfOk result (λ is. IsTrue is → label_depth label.now < most_depth) }
    ensures memory { IsOkUnless result Refusal.Memory }
{
    if label.size() < MOST_DEPTH as usize {
        return Ok(true);
    }
    match Label::conjunction(alloc, label, label) {
        Ok(_) => Ok(true),
        Err(Refusal::Memory) => Err(Refusal::Memory),
        Err(_) => Ok(false),
    }
}
