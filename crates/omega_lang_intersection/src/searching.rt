//! The search for an accepting lasso in the graph of a product, which is not made.

ghost use Rattle.std.specs.Prelude.{IfOk, IsOkUnless};
ghost use Rattle.omega_hoa_automaton.specs.Automaton.{Description};
ghost use Rattle.omega_lang_intersection.specs.private.Meeting.{IsVerdictOn};
ghost use Rattle.omega_lang_product.specs.PairGraph.{IsPairGraph};

use omega_hoa_automaton::Refusal;
use omega_lang_lasso_search::lasso_in_table;
use omega_lang_product::PairGraph;
use omega_lang_runs::Verdict;
use std::alloc::Global;

/// Returns whether there is an accepting lasso in the graph of a product, and if so, one.
pub(crate) fn verdict_on(alloc: Global, graph: &PairGraph) -> Result<Verdict, Refusal>
    requires { (one : Description) × (other : Description) × IsPairGraph one other graph.now }
    ensures verdict { IfOk result (IsVerdictOn graph.now) }
    ensures memory { IsOkUnless result Refusal.Memory }
{
    lasso_in_table(
        alloc,
        graph.starts.as_slice(),
        graph.edges.ends.as_slice(),
        graph.edges.marks.as_slice(),
        &graph.acceptance,
    )
}
