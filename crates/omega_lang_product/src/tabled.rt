//! Edges with what is known of their labels, by which most pairs of edges are judged.

ghost use Rattle.std.specs.Prelude.{◌≡◌, IfErr, IfOk, IfSome, IsOkUnless, IsTrue};
ghost use Rattle.omega_text.specs.Cases.{never, or_memory, or_task};
ghost use Rattle.omega_hoa_edges.specs.Summaries.{IsSummaryOf};
ghost use Rattle.omega_hoa_label.specs.Label.{conjunction};
ghost use Rattle.omega_hoa_satisfiable.specs.Literals.{AreLiteralsOf};
ghost use Rattle.omega_hoa_satisfiable.specs.Satisfiable.{IsSatisfiable};
ghost use Rattle.omega_lang_product.specs.Pairs.{can_meet};
ghost use Rattle.omega_lang_product.specs.private.Meeting.{IsUnmet};

use crate::plain_edge::PlainEdge;
use omega_hoa_edges::{LabelSummary, can_summaries_meet};
use omega_hoa_label::Label;
use omega_hoa_satisfiable::Literals;
use omega_text::Refusal;
use std::alloc::Global;
use std::marker::Model;

/// The most atoms and operators of a label whose literals are kept. Two such labels together are never too deep nor too
/// large.
const MOST_SMALL: usize = 255;

/// An edge with what is known of its label. Contracts see the edge.
#[derive(Debug, Drop)]
pub(crate) struct Tabled {
    plain_edge: PlainEdge,
    /// The literals of the label, if it is a small conjunction of them. Most pairs of edges are told apart by these.
    literals: Option<Literals>,
    summary: LabelSummary,
}

impl Model for Tabled {
    ghost use Rattle.std.specs.Prelude.{IfSome};
    ghost use Rattle.omega_hoa_edges.specs.Summaries.{IsSummaryOf};
    ghost use Rattle.omega_hoa_satisfiable.specs.Literals.{AreLiteralsOf};
    ghost use Rattle.omega_lang_product.specs.contracts.plain_edge.PlainEdge as seen_plain_edge;
    ghost use Rattle.omega_lang_product.specs.declared.plain_edge.PlainEdge.{PlainEdge};

    ghost Value = { PlainEdge };

    ghost coded = { seen_plain_edge.the_row.coded };

    ghost view = { λ t. t.plain_edge };

    ghost invariant = { λ t. IsSummaryOf t.plain_edge.label t.summary
        × IfSome t.literals (AreLiteralsOf t.plain_edge.label) };
}

impl Tabled {
    /// Adds to an edge what is known of its label.
    pub(crate) fn of(alloc: Global, plain_edge: PlainEdge) -> Result<Tabled, Refusal>
        ensures edge { IfOk result (λ edge. edge ≡ plain_edge) }
        ensures memory { IsOkUnless result Refusal.Memory }
    {
        let summary = LabelSummary::of(alloc, &plain_edge.label)?;
        let literals = small_literals(&plain_edge.label, &summary);
        Ok(Tabled {
            plain_edge,
            literals,
            summary,
        })
    }

    /// Returns the label.
    pub(crate) fn label(&self) -> &Label
        ensures { result.now ≡ self.now.label }
    {
        &self.plain_edge.label
    }

    /// Returns the pair of the states that it and `other` lead to.
    pub(crate) fn joint_target(&self, other: &Tabled) -> (u32, u32)
        ensures { result ≡ (self.now.target, other.now.target) }
    {
        (self.plain_edge.target, other.plain_edge.target)
    }

    /// Returns the marks: the numbers of the acceptance sets that it is in.
    pub(crate) fn marks(&self) -> &[u32]
        ensures { result.now ≡ self.now.marks }
    {
        self.plain_edge.marks.as_slice()
    }

    /// Whether it can be taken together with `other`. Fails with [TaskFault::TooManyPropositions] if that is undecided,
    /// and with [TaskFault::TooLarge] if the labels of both are too deep or too large to be judged.
    pub(crate) fn can_meet(&self, alloc: Global, other: &Tabled) -> Result<bool, Refusal>
        ensures ok { IfOk result (λ meets. meets ≡ can_meet self.now other.now) }
        ensures err { IfErr result (or_task (IsUnmet self.now other.now) (or_memory never)) }
    {
        if self.is_seen_apart(other) {
            return Ok(false);
        }
        let (one, another) = (self.label(), other.label());
        let possible = can_summaries_meet(
            alloc,
            one,
            self.label_summary(),
            another,
            other.label_summary(),
        )?;
        Ok(possible)
    }

    /// Whether literals of both labels show at once that it can't be taken together with `other`.
    fn is_seen_apart(&self, other: &Tabled) -> bool
        ensures { IsTrue result → IsSatisfiable (conjunction self.now.label other.now.label) → ⊥ }
    {
        match (self.label_literals(), other.label_literals()) {
            (Some(one), Some(another)) => !one.meets(another),
            _ => false,
        }
    }

    /// Returns the literals of its label, if it is a small conjunction of them.
    fn label_literals(&self) -> Option<Literals>
        ensures { IfSome result (AreLiteralsOf self.now.label) }
    {
        self.literals
    }

    /// Returns what is known of its label.
    fn label_summary(&self) -> &LabelSummary
        ensures { IsSummaryOf self.now.label result.now }
    {
        &self.summary
    }
}

/// Returns the literals of `label`, which has this `summary`, if it is a small conjunction of them.
fn small_literals(label: &Label, summary: &LabelSummary) -> Option<Literals>
    requires { IsSummaryOf label.now summary.now }
    ensures { IfSome result (AreLiteralsOf label.now) }
{
    if label.size() > MOST_SMALL {
        return None;
    }
    summary.literals()
}
