/// A command that reads the text of a formula, whose propositions are parted between the system and the environment.
#[derive(Clone, Copy, Debug)]
pub enum Synthesis {
    /// Says whether the formula is realizable.
    Decide,
    /// Writes the winner's automaton: a controller, or a counter-strategy.
    Controller,
    /// Writes a controller as a circuit if there is one, and else says that the formula is not realizable.
    Circuit {
        /// Whether the circuit is written in binary, and not in ASCII.
        binary: bool,
    },
    /// Writes the game in which it is decided whether the formula is realizable.
    Game,
}
