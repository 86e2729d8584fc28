use crate::searcher_name::SearcherName;
use omega_game_values::Player;

/// A command that reads one text.
#[derive(Clone, Copy, Debug)]
pub enum OneText {
    /// Describes a game: its size, and the bounds on lifts.
    Show,
    /// The same as a value of JSON.
    ShowJson,
    /// Says that the text of a game is accepted.
    Check,
    /// Describes a circuit by its size.
    ShowCircuit,
    /// The same as a value of JSON.
    ShowCircuitJson,
    /// Says that the text of a circuit is accepted.
    CheckCircuit,
    /// Writes a circuit in the one form that it has.
    CanonCircuit {
        /// Whether it is written in binary, and not in ASCII.
        binary: bool,
    },
    /// Writes a game in the one form that it has.
    Canon,
    /// Writes the part of a game that one node reaches, in the same form.
    CanonPart {
        /// The identifier of the node.
        from: u32,
    },
    /// Reads a game in which the least priority decides, and writes in the same form one in which the greatest does and
    /// the same players win; whole, or the part that one node reaches.
    CanonLeast {
        /// The identifier of the node whose part is written.
        from: Option<u32>,
    },
    /// Solves a game: for both players, or for one alone; whole, or the part that one node reaches.
    Solve {
        player: Option<Player>,
        /// The identifier of the node whose part is solved.
        from: Option<u32>,
    },
    /// Solves a game for both players by a search whose answer is judged; whole, or the part that one node reaches.
    Search {
        /// The identifier of the node whose part is solved.
        from: Option<u32>,
        /// The searcher that is to search alone.
        by: Option<SearcherName>,
        /// How many times as far as without an effort each searcher may go, 1 to `MOST_EFFORT`.
        effort: u64,
    },
    /// Says whether an automaton accepts nothing, and shows a lasso if it accepts something. Decided by lifting.
    Empty {
        /// Whether the word that the lasso accepts is written too.
        word: bool,
        /// Whether the states of the lasso's run are written too, with their names.
        names: bool,
        /// Whether the exit says which of the two is written.
        status: bool,
    },
    /// The same, decided by a search.
    EmptySearch {
        /// Whether the word that the lasso accepts is written too.
        word: bool,
        /// Whether the states of the lasso's run are written too, with their names.
        names: bool,
        /// Whether the exit says which of the two is written.
        status: bool,
    },
    /// Writes the emptiness game of an automaton.
    Game,
    /// Writes the automaton of the words of a circuit.
    CircuitAutomaton,
    /// Writes an automaton that accepts the words that a deterministic one does not.
    Complement,
    /// Writes an automaton without the states that no start reaches and those in which no accepting lasso starts.
    Trim,
    /// Writes an automaton that accepts the words that satisfy a formula, or those that do not.
    Ltl {
        /// Whether it accepts those that do not.
        negated: bool,
    },
    /// Writes a deterministic parity automaton that accepts the words that satisfy a formula, or those that do not.
    LtlDeterministic {
        /// Whether it accepts those that do not.
        negated: bool,
    },
    /// Says whether an automaton is realizable. Decided by a search whose answer is judged, and by lifting if the
    /// search finds nothing.
    Realize {
        /// Whether the winner's automaton is written in place of the line.
        controller: bool,
    },
    /// The same, decided by lifting.
    RealizeByLifting {
        /// Whether the winner's automaton is written in place of the line.
        controller: bool,
    },
    /// Says whether an automaton is realizable, and writes a controller as a circuit if there is one. Decided as by
    /// `Realize`.
    RealizeCircuit {
        /// Whether the circuit is written in binary, and not in ASCII.
        binary: bool,
    },
    /// Writes the game in which it is decided whether an automaton is realizable.
    RealizabilityGame,
    /// Draws a game.
    DrawGame,
    /// Draws the part of a game that one node reaches.
    DrawPart {
        /// The identifier of the node.
        from: u32,
        /// How many steps from the node the part goes, if that is said.
        depth: Option<u32>,
    },
    /// Draws an automaton.
    DrawAutomaton,
    /// Draws an automaton with an accepting lasso, if it has one.
    DrawLasso,
}
