//! The rules of the search, each a law by itself. They hold for every formula, since a formula is monotone in its
//! atoms: making an atom true never makes the formula false.
ghost use Rattle.omega_graph.specs.Rules.{AllEdgesShowInf, ConnectedEdgesAccept};
ghost use Rattle.omega_graph.specs.Rules.{DisjunctionsSplit, FinIsTriedBothWays, FinTakesEdges};
ghost use Rattle.omega_graph.specs.Rules.{KnownAtomsFall, PassingWalksAccept, WalksAreKept};
ghost use Rattle.omega_graph.specs.Rules.{WalksHaveEdges, WalksNeedInf, WalksStayInComponents};

/// States that an accepting closed walk in a set of edges is one in every larger set.
pub fn walks_are_kept()
    ensures { WalksAreKept }
{}

/// States that a closed walk lies in one strongly connected component, if components are numbered such that no edge
/// leads to a greater number.
pub fn walks_stay_in_components()
    ensures { WalksStayInComponents }
{}

/// States that a formula keeps its value on every closed walk if atoms are replaced by their known values. An atom has
/// a known value if every edge meets its set of marks, or none does.
pub fn known_atoms_fall()
    ensures { KnownAtomsFall }
{}

/// States that a set of edges with an accepting closed walk has an edge.
pub fn walks_have_edges()
    ensures { WalksHaveEdges }
{}

/// States that a closed walk through given edges accepts if the formula holds with each `Inf` judged on these edges and
/// each `Fin` on all edges of the set.
pub fn passing_walks_accept()
    ensures { PassingWalksAccept }
{}

/// States that a strongly connected set has an accepting closed walk if the formula holds with each `Inf` judged on
/// given edges of it, at least one, and each `Fin` on all.
pub fn connected_edges_accept()
    ensures { ConnectedEdgesAccept }
{}

/// States that the formula holds with each `Inf` judged on all edges and each `Fin` true, if some closed walk accepts.
pub fn walks_need_inf()
    ensures { WalksNeedInf }
{}

/// States that a formula without `Fin` holds of all edges together if some closed walk satisfies it.
pub fn all_edges_show_inf()
    ensures { AllEdgesShowInf }
{}

/// States that a disjunction has an accepting closed walk exactly if one of its parts has one.
pub fn disjunctions_split()
    ensures { DisjunctionsSplit }
{}

/// States that a conjunct `Fin` removes the edges that it forbids.
pub fn fin_takes_edges()
    ensures { FinTakesEdges }
{}

/// States that a search can split on an atom `Fin` anywhere in a formula. A closed walk accepts exactly if one does
/// with the atom true and without the edges that it forbids, or with the atom false.
pub fn fin_is_tried_both_ways()
    ensures { FinIsTriedBothWays }
{}
