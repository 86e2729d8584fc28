//! What refusals report, and the texts by which they display themselves.
use crate::rows::assert_row;
use omega_text::{AutomatonFault, CircuitFault, GameFault, Refusal, TaskFault, TextFault};
use std::alloc::{AllocError, Global};

// Each refusal with its number, its name, its place and the text that it prints.
static ROWS: [(Refusal, u32, &str, Option<usize>, &str); 45] = [
    (
        Refusal::Text(TextFault::Lex { at: 9 }),
        1,
        "Lex",
        Some(9),
        "no token begins at byte 9",
    ),
    (
        Refusal::Text(TextFault::Number { at: 0 }),
        2,
        "Number",
        Some(0),
        "the digits at byte 0 are no number from 0 to 2147483647",
    ),
    (
        Refusal::Text(TextFault::Syntax { at: 5 }),
        3,
        "Syntax",
        Some(5),
        "the text can't go on as it does at byte 5",
    ),
    (
        Refusal::Text(TextFault::TooLong),
        4,
        "TooLong",
        None,
        "the text has over 16777216 bytes",
    ),
    (
        Refusal::Game(GameFault::DuplicateNode),
        10,
        "DuplicateNode",
        None,
        "an identifier is specified twice",
    ),
    (
        Refusal::Game(GameFault::UndefinedSuccessor),
        11,
        "UndefinedSuccessor",
        None,
        "a successor has no specification",
    ),
    (
        Refusal::Game(GameFault::HeaderTooSmall),
        12,
        "HeaderTooSmall",
        None,
        "the header's number is below the greatest identifier",
    ),
    (
        Refusal::Game(GameFault::TooManyNodes),
        13,
        "TooManyNodes",
        None,
        "over 1048576 nodes",
    ),
    (
        Refusal::Game(GameFault::TooManyEdges),
        14,
        "TooManyEdges",
        None,
        "over 8388608 listed successors",
    ),
    (
        Refusal::Automaton(AutomatonFault::Version),
        20,
        "Version",
        None,
        "the version is not v1",
    ),
    (
        Refusal::Automaton(AutomatonFault::RepeatedHeader),
        21,
        "RepeatedHeader",
        None,
        "a header item that may not repeat does",
    ),
    (
        Refusal::Automaton(AutomatonFault::MissingAcceptance),
        22,
        "MissingAcceptance",
        None,
        "there is no Acceptance: item",
    ),
    (
        Refusal::Automaton(AutomatonFault::UnknownHeader),
        23,
        "UnknownHeader",
        None,
        "an unknown header name begins with a capital",
    ),
    (
        Refusal::Automaton(AutomatonFault::StateRange),
        24,
        "StateRange",
        None,
        "a state number is not below the count of states",
    ),
    (
        Refusal::Automaton(AutomatonFault::SetRange),
        25,
        "SetRange",
        None,
        "a set number is not below the count of sets",
    ),
    (
        Refusal::Automaton(AutomatonFault::Proposition),
        26,
        "Proposition",
        None,
        "propositions are miscounted, repeated, out of range or over 1024",
    ),
    (
        Refusal::Automaton(AutomatonFault::Alias),
        27,
        "Alias",
        None,
        "an alias is undefined where it is used, or defined twice",
    ),
    (
        Refusal::Automaton(AutomatonFault::StateTwice),
        28,
        "StateTwice",
        None,
        "a state is defined twice",
    ),
    (
        Refusal::Automaton(AutomatonFault::MixedLabels),
        29,
        "MixedLabels",
        None,
        "labels stand both on a state and its edges, or on some of its edges alone",
    ),
    (
        Refusal::Automaton(AutomatonFault::ImplicitCount),
        30,
        "ImplicitCount",
        None,
        "the unlabelled edges of a state are not one for each valuation",
    ),
    (
        Refusal::Automaton(AutomatonFault::AcceptanceAtom),
        31,
        "AcceptanceAtom",
        None,
        "an acceptance atom is neither Fin nor Inf",
    ),
    (
        Refusal::Automaton(AutomatonFault::TooDeep),
        32,
        "TooDeep",
        None,
        "an expression is over 256 deep",
    ),
    (
        Refusal::Automaton(AutomatonFault::Expansion),
        33,
        "Expansion",
        None,
        "expanded labels have too many tree nodes",
    ),
    (
        Refusal::Task(TaskFault::NotParity),
        40,
        "NotParity",
        None,
        "the acceptance is not one whose emptiness is decided",
    ),
    (
        Refusal::Task(TaskFault::UniversalBranch),
        41,
        "UniversalBranch",
        None,
        "an edge or a start lists two or more states",
    ),
    (
        Refusal::Task(TaskFault::TooManyPropositions),
        42,
        "TooManyPropositions",
        None,
        "a label mentions over 12 propositions",
    ),
    (
        Refusal::Task(TaskFault::TooWide),
        50,
        "TooWide",
        None,
        "nodes times losing priorities are over 67108864",
    ),
    (
        Refusal::Task(TaskFault::Budget),
        51,
        "Budget",
        None,
        "the budget is used up and a lift is due",
    ),
    (
        Refusal::Task(TaskFault::BadSolution),
        53,
        "BadSolution",
        None,
        "the text is no solution of the game",
    ),
    (
        Refusal::Task(TaskFault::UnknownNode),
        54,
        "UnknownNode",
        None,
        "no node of the game has the identifier",
    ),
    (
        Refusal::Task(TaskFault::TooLarge),
        55,
        "TooLarge",
        None,
        "the automaton would have over 1048576 states or 8388608 edges",
    ),
    (
        Refusal::Task(TaskFault::NotDeterministic(7)),
        56,
        "NotDeterministic",
        Some(7),
        "the automaton is not deterministic at state 7",
    ),
    (
        Refusal::Task(TaskFault::Controllable),
        58,
        "Controllable",
        None,
        "controllable-AP: is missing, repeats, or names a proposition twice or one that there is not",
    ),
    (
        Refusal::Task(TaskFault::Unjudged),
        59,
        "Unjudged",
        None,
        "what was found is not what was asked for: a fault of the program",
    ),
    (Refusal::Memory, 60, "Memory", None, "out of memory"),
    (Refusal::Io, 61, "Io", None, "a read or a write failed"),
    (
        Refusal::Circuit(CircuitFault::Variables),
        70,
        "Variables",
        None,
        "the counts do not fit the greatest variable, or that is over 16777216",
    ),
    (
        Refusal::Circuit(CircuitFault::LiteralRange),
        71,
        "LiteralRange",
        None,
        "a literal is over that of the greatest variable",
    ),
    (
        Refusal::Circuit(CircuitFault::Defined),
        72,
        "Defined",
        None,
        "an input, a latch or a gate is negated, constant, or defined twice",
    ),
    (
        Refusal::Circuit(CircuitFault::Undefined),
        73,
        "Undefined",
        None,
        "a literal is used that nothing defines",
    ),
    (
        Refusal::Circuit(CircuitFault::Cycle),
        74,
        "Cycle",
        None,
        "a gate uses itself",
    ),
    (
        Refusal::Circuit(CircuitFault::Reset),
        75,
        "Reset",
        None,
        "the reset of a latch is neither 0 nor 1",
    ),
    (
        Refusal::Circuit(CircuitFault::Symbol),
        76,
        "Symbol",
        None,
        "a symbol names what there is not, or names something twice",
    ),
    (
        Refusal::Circuit(CircuitFault::Properties),
        77,
        "Properties",
        None,
        "there are bad states, constraints, justice properties or fairness constraints",
    ),
    (
        Refusal::Circuit(CircuitFault::Name),
        78,
        "Name",
        None,
        "a name of an input or an output cannot be written",
    ),
];

fn is_reported(refusal: Refusal, number: u32, name: &str, at: Option<usize>) -> bool {
    refusal.number() == number && refusal.name() == name && refusal.at() == at
}

fn text_of_refusal(alloc: Global, refusal: Refusal) -> Result<String, AllocError> {
    format!(in alloc; "{refusal}")
}

fn is_shown(alloc: Global, refusal: Refusal, want: &str) -> bool {
    match text_of_refusal(alloc, refusal) {
        Ok(text) => text.as_str() == want,
        Err(_) => false,
    }
}

#[test]
fn refusals_have_number_name_place_and_text(rt: HostRuntime) {
    for (row, (refusal, number, name, at, text)) in ROWS.iter().enumerate() {
        assert_row(&rt, row, is_reported(*refusal, *number, name, *at));
        assert_row(&rt, row, is_shown(rt.alloc(), *refusal, text));
    }
}
