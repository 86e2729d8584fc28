//! Deterministic automata that are found for formulas: how many states they have, and words.
use crate::rows::{assert_row, number_of};
use omega_lang_complement::complement;
use omega_lang_inclusion::{Membership, accepts};
use omega_lang_word_text::read_word;
use omega_ltl_deterministic::{
    Automaton, Formula, Refusal, complete_candidate, deterministic_candidate,
};
use omega_ltl_text::read_formula;
use std::alloc::Global;

/// The text of a word, and whether it satisfies the formula.
type WordRow = (&'static str, bool);

/// A formula, how many states its automaton has, how many with an edge for each letter, and words.
type FormulaRow = (&'static str, u32, u32, &'static [WordRow]);

// There is one state more where some letter has no edge: where the formula cannot be satisfied any more. The numbers of
// states of the last rows are those of the lists in which the formulas stand: which clients wait and for which of them
// the automaton waits, and for which of six recurrences and a response it does.
static FORMULAS: [FormulaRow; 10] = [
    ("1", 1, 1, &[("cycle{1}", true)]),
    ("0", 1, 2, &[("cycle{1}", false)]),
    (
        "a U b",
        2,
        3,
        &[
            ("a&!b; a&!b; !a&b; cycle{!a&!b}", true),
            ("a&b; cycle{!a&!b; a&!b}", true),
            ("cycle{a&!b}", false),
            ("a&!b; !a&!b; !a&b; cycle{!a&b}", false),
        ],
    ),
    (
        "G(p -> F q)",
        2,
        2,
        &[
            ("cycle{p&!q; !p&!q; !p&q}", true),
            ("!p&q; p&!q; cycle{!p&!q}", false),
            ("p&q; cycle{!p&q; p&!q; p&q}", true),
        ],
    ),
    (
        "F G a",
        1,
        1,
        &[("!a; a; !a; cycle{a; a}", true), ("cycle{!a; a}", false)],
    ),
    (
        "G F a & G F b",
        2,
        2,
        &[
            ("cycle{a&!b; !a&b}", true),
            ("a&b; a&b; cycle{!a&b; !a&!b}", false),
        ],
    ),
    // One state for each value of `a` at first, and one from which each word is accepted.
    (
        "X a <-> a",
        4,
        5,
        &[
            ("a; a; cycle{!a}", true),
            ("!a; !a; cycle{a}", true),
            ("a; !a; cycle{a}", false),
            ("!a; a; cycle{!a}", false),
        ],
    ),
    // Neither of the two does `G` part, and `F` parts both.
    (
        "F(a | X b) xor !G !(b & a)",
        3,
        4,
        &[
            ("a&!b; cycle{!a&!b}", true),
            ("cycle{!a&!b}", false),
            ("!a&!b; !a&!b; !a&b; cycle{!a&!b}", true),
            ("a&!b; a&b; cycle{!a&!b}", false),
            ("a&b; cycle{!a&!b}", false),
        ],
    ),
    (
        "G(r -> F g) & G(s -> F h) & G !(g & h)",
        8,
        9,
        &[
            (
                "r&!g&s&!h; !r&g&!s&!h; !r&!g&!s&h; cycle{!r&!g&!s&!h}",
                true,
            ),
            ("r&!g&s&!h; !r&g&!s&!h; cycle{!r&!g&!s&!h}", false),
            ("cycle{r&!g&!s&!h; !r&!g&!s&h}", false),
            ("!r&g&!s&h; cycle{!r&!g&!s&!h}", false),
        ],
    ),
    (
        "G F a & G F b & G F c & G F d & G F e & G F f -> G(q -> F r)",
        7,
        7,
        &[],
    ),
];

/// Whether a word is accepted as it is said to be.
fn is_accepted_as_said(alloc: Global, automaton: &Automaton, word: &WordRow) -> bool {
    let (text, satisfies) = *word;
    match read_word(alloc, text.as_bytes()) {
        Ok(word) => is_membership(accepts(alloc, word, automaton), satisfies),
        Err(_) => false,
    }
}

/// Whether this is answered of a word.
fn is_membership(answer: Result<Membership, Refusal>, accepted: bool) -> bool {
    match answer {
        Ok(Membership::Accepted) => accepted,
        Ok(Membership::Rejected(_)) => !accepted,
        Err(_) => false,
    }
}

/// Whether an automaton was made that has so many states.
fn has_states(made: Result<Automaton, Refusal>, states: u32) -> bool {
    match made {
        Ok(automaton) => automaton.state_count() == states,
        Err(_) => false,
    }
}

/// Whether an automaton was made that has so many states and accepts these words as they are said to be. Its complement
/// has one state more, `complete`, if in some state some letter has no edge.
fn is_as_said(
    alloc: Global,
    made: Result<Automaton, Refusal>,
    states: u32,
    complete: u32,
    words: &[WordRow],
) -> bool {
    match made {
        Ok(automaton) => {
            automaton.state_count() == states
                && has_states(complement(alloc, &automaton), complete)
                && words
                    .iter()
                    .all(|word| is_accepted_as_said(alloc, &automaton, word))
        }
        Err(_) => false,
    }
}

/// Returns the formula of a text.
fn formula_in(alloc: Global, text: &str) -> Result<Formula, Refusal> {
    read_formula(alloc, text.as_bytes())
}

/// Whether the automata of a row are as it says.
fn is_row(alloc: Global, row: &FormulaRow) -> bool {
    let (text, states, complete, words) = *row;
    match formula_in(alloc, text) {
        Ok(formula) => {
            let one = deterministic_candidate(alloc, &formula);
            let other = complete_candidate(alloc, &formula);
            is_as_said(alloc, one, states, complete, words)
                && is_as_said(alloc, other, complete, complete, words)
        }
        Err(_) => false,
    }
}

#[test]
fn formulas_have_these_automata(rt: HostRuntime) {
    for (row, formula) in FORMULAS.iter().enumerate() {
        assert_row(&rt, row, is_row(rt.alloc(), formula));
    }
}

/// 17 names, and 13 in one part.
static LARGE: [&str; 2] = [
    "a & b & c & d & e & f & g & h & i & j & k & l & m & n & o & p & q",
    "G(a | b | c | d | e | f | g | h | i | j | k | l | m)",
];

/// Whether both automata of a formula are refused as too large.
fn is_refused(alloc: Global, text: &str) -> bool {
    match formula_in(alloc, text) {
        Ok(formula) => {
            number_of(&deterministic_candidate(alloc, &formula)) == 55
                && number_of(&complete_candidate(alloc, &formula)) == 55
        }
        Err(_) => false,
    }
}

#[test]
fn large_formulas_are_refused(rt: HostRuntime) {
    for (row, text) in LARGE.iter().enumerate() {
        assert_row(&rt, row, is_refused(rt.alloc(), text));
    }
}
