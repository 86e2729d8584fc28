use omega_io::Exit;
use omega_text::ByteString;

/// What formulas are answered, one after the other.
#[derive(Debug, Drop)]
pub struct FormulaAnswers {
    /// How the program ends: as [Exit::No] if one of the answers is `no`.
    pub exit: Exit,
    /// The texts of the answers, one after the other.
    pub text: Vec<u8>,
    /// If they are asked for, the names of each formula that no proposition of the automaton has: those of the first
    /// formula, and so on.
    pub unmentioned: Vec<ByteString>,
}
