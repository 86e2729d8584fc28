use std::fmt;

/// What kind of text is read.
#[derive(Clone, Copy, Debug, PartialEq, Eq)]
pub enum Format {
    /// A game in the text of PGSolver.
    Pg,
    /// A stream of automata in the Hanoi Omega-Automata Format, version 1.
    Hoa,
    /// A circuit in the AIGER format, in ASCII or in binary.
    Aiger,
}

/// The name of the format on a command line.
impl fmt::Display for Format {
    fn fmt<W: fmt::Write>(&self, f: &mut fmt::Formatter<W>) -> fmt::Result {
        f.write_str(match self {
            Format::Pg => "pg",
            Format::Hoa => "hoa",
            Format::Aiger => "aiger",
        })
    }
}
