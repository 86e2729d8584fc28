ghost use Rattle.std.specs.Prelude.{◌≡◌};
ghost use Rattle.omega_cli_command.specs.Formats.{for_automata, for_circuits};

use crate::formula_judge::FormulaJudge;
use crate::formulas::Formulas;
use crate::one_text::OneText;
use crate::other::Other;
use crate::partition::Partition;
use crate::stream::Stream;
use crate::synthesis::Synthesis;
use crate::two_texts::TwoTexts;
use omega_text::ByteString;

/// What the program does, by what it reads.
#[derive(Debug, Drop)]
pub enum Command {
    /// Reads one text.
    OneText(OneText),
    /// Reads a stream of automata, in pieces.
    Stream(Stream),
    /// Reads the text of the input and the other.
    TwoTexts(TwoTexts, Other),
    /// Reads these texts of formulas, at least one, and the text of the input.
    Formulas(Formulas, Vec<ByteString>),
    /// Reads the text of a formula, whose propositions are parted so.
    Synthesis(Synthesis, Partition),
    /// Reads the text of the input and the other, which is that of a formula, whose propositions are parted so.
    FormulaJudge(FormulaJudge, Other, Partition),
}

impl Command {
    /// Returns the command for a text of automata: that of automata in place of `show`, `check`, `canon` and `draw` of
    /// games, and any other as it is.
    pub fn for_automata(self) -> Command
        ensures { result ≡ for_automata self }
    {
        match self {
            Command::OneText(OneText::Show) => Command::Stream(Stream::Show),
            Command::OneText(OneText::ShowJson) => Command::Stream(Stream::ShowJson),
            Command::OneText(OneText::Check) => Command::Stream(Stream::Check { at_least: 0 }),
            Command::OneText(OneText::Canon) => Command::Stream(Stream::Canon),
            Command::OneText(OneText::DrawGame) => Command::OneText(OneText::DrawAutomaton),
            other => other,
        }
    }

    /// Returns the command for the text of a circuit: that of circuits in place of `show`, `check` and `canon` of
    /// games, and any other as it is. The canonical text is in ASCII.
    pub fn for_circuits(self) -> Command
        ensures { result ≡ for_circuits self }
    {
        match self {
            Command::OneText(OneText::Show) => Command::OneText(OneText::ShowCircuit),
            Command::OneText(OneText::ShowJson) => Command::OneText(OneText::ShowCircuitJson),
            Command::OneText(OneText::Check) => Command::OneText(OneText::CheckCircuit),
            Command::OneText(OneText::Canon) => {
                Command::OneText(OneText::CanonCircuit { binary: false })
            }
            other => other,
        }
    }
}
