//! Laws of runs and words. An automaton without universal branching has an accepting run, which is infinite, exactly if
//! it has an accepting lasso, which is finite; and exactly then it accepts a word. Verdicts never contradict. An edge
//! can be taken exactly if its label is true. The limit of the priorities decides a parity formula.

ghost use Rattle.omega_lang_runs.specs.Laws.{EdgesAreTakenWhereTrue, EmptyAcceptsNoWord, VerdictsAgree};
ghost use Rattle.omega_lang_runs.specs.Parity.{ParityIsLimit};
ghost use Rattle.omega_lang_runs.specs.Runs.{AcceptingRunsHaveLassos, LassosAreAcceptingRuns};
ghost use Rattle.omega_lang_runs.specs.Words.{AcceptedWordsHaveLassos, AcceptingRunsHaveWords};
ghost use Rattle.omega_lang_runs.specs.Words.{LassosHaveAcceptedWords};

use omega_hoa_acceptance::parity_is_priority;

/// States that an automaton without universal branching that has an accepting run, of any acceptance formula, has an
/// accepting lasso.
pub fn accepting_runs_have_lassos()
    ensures { AcceptingRunsHaveLassos }
{}

/// States that an automaton without universal branching that has an accepting lasso has an accepting run: the stem, and
/// then the cycle for ever.
pub fn lassos_are_accepting_runs()
    ensures { LassosAreAcceptingRuns }
{}

/// States that an automaton without universal branching that accepts a word has an accepting lasso. So one without an
/// accepting lasso accepts no word.
pub fn accepted_words_have_lassos()
    ensures { AcceptedWordsHaveLassos }
{}

/// States that each accepting run of an automaton without universal branching is a run on a word that it accepts. Each
/// edge of the run is usable: some propositions make its label true, or it has no label and is taken at the valuation
/// of its index.
pub fn accepting_runs_have_words()
    ensures { AcceptingRunsHaveWords }
{}

/// States that an automaton without universal branching that has an accepting lasso accepts a word.
pub fn lassos_have_accepted_words()
    ensures { LassosHaveAcceptedWords }
{}

/// States that two verdicts on an automaton never contradict: one is `Empty` exactly if the other is.
pub fn verdicts_agree()
    ensures { VerdictsAgree }
{}

/// States that an automaton without universal branching accepts no word if the verdict on it is `Empty`.
pub fn empty_accepts_no_word()
    ensures { EmptyAcceptsNoWord }
{}

/// States that an edge can be taken exactly if its label is true: that of its state, or else its own, or else any label
/// that is true at the valuation of the edge's index alone.
pub fn edges_are_taken_where_true()
    ensures { EdgesAreTakenWhereTrue }
{}

/// States that infinitely many marks of a parity kind satisfy its formula exactly if the limit of their priorities is
/// even. The limit is the greatest priority that recurs for ever.
pub fn parity_is_limit()
    ensures { ParityIsLimit }
{
    parity_is_priority();
}
