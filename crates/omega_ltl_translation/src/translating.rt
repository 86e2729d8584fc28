ghost use Rattle.std.specs.Prelude.{◌≡◌, ◌<◌, IfErr, IfOk};
ghost use Rattle.omega_ltl_formula.specs.Table.{tree_of};
ghost use Rattle.omega_ltl_shapes.specs.Shapes.{demand};
ghost use Rattle.omega_ltl_terms.specs.Adding.{IsLargeBy};
ghost use Rattle.omega_ltl_translation.specs.PastLimits.{IsPastLimits};
ghost use Rattle.omega_ltl_translation.specs.Translation.{HasHeader, IsGeneralizedBuchi, IsTranslation};
ghost use Rattle.omega_ltl_translation.specs.Translation.{asked_tree, given_name};

use crate::exploring::explore;
use crate::forming::automaton_of_graph;
use omega_hoa_automaton::Automaton;
use omega_ltl_formula::Formula;
use omega_ltl_shapes::{good_terms_accept, traces_are_sound, truths_follow_shapes};
use omega_ltl_terms::Tables;
use omega_text::Refusal;
use std::alloc::Global;

/// Returns an automaton that accepts exactly the words that satisfy a formula, or, if `negated`, exactly those that do
/// not (Couvreur 1999; Gerth, Peled, Vardi and Wolper 1995).
///
/// Its propositions are the names of the formula, and `name` is its name, none if it is empty. Its states are sets of
/// demands, numbered as they are found from the start, state 0. Its edges carry marks, and each set has to recur: one
/// for each operator that promises something (`F`, `U`, `M`, or a negated `G`, `W`, `R`). The name of the acceptance is
/// `all`, `Buchi` or `generalized-Buchi` with the number of sets.
///
/// Time and memory are exponential in the number of operators at worst.
///
/// Refused with [TaskFault::TooLarge] if there are over `MOST_STATES` states, `MOST_EDGES` edges, `MOST_TERMS` terms of
/// a demand or of a state, or `MOST_SETS` sets, or if labels together have over 16,777,216 nodes, for which over 86,928
/// edges are needed.
pub fn translate(
    alloc: Global,
    formula: &Formula,
    negated: bool,
    name: &[u8],
) -> Result<Automaton, Refusal>
    ensures right { IfOk result (IsTranslation (asked_tree negated (tree_of formula.now))) }
    ensures buchi { IfOk result IsGeneralizedBuchi }
    ensures header { IfOk result (HasHeader (given_name name.now) formula.now.table.names) }
    ensures refused { IfErr result (IsLargeBy (IsPastLimits formula.now negated)) }
{
    truths_follow_shapes();
    traces_are_sound();
    good_terms_accept();
    formula.keeps_limits();
    let tables = Tables::of_formula(alloc, formula, negated)?;
    let root = root_demand(formula, negated);
    let graph = explore(alloc, &tables, root)?;
    let sets = tables.strongs.len() as u32;
    automaton_of_graph(alloc, name, formula.names(), graph.edges.as_slice(), sets)
}

/// Returns the demand that a formula holds, or, if `negated`, that it does not.
fn root_demand(formula: &Formula, negated: bool) -> u32
    ensures { result ≡ demand formula.now.root negated }
{
    formula.keeps_limits();
    let node = formula.root() as u32;
    if negated { 2 * node + 1 } else { 2 * node }
}
