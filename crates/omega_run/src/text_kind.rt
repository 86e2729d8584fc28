ghost use Rattle.std.specs.Prelude.{◌≡◌};
ghost use Rattle.omega_io.specs.declared.refused.Which.TheVariants.{File, Input};
ghost use Rattle.omega_run.specs.Causes.{kind_asked, kind_of, kind_of_one, kind_of_two};

use omega_cli_command::{Command, Formulas, OneText, TwoTexts};
use omega_io::Which;

/// What a text is read as, by which the causes of its refusals differ.
#[derive(Clone, Copy)]
pub(crate) enum TextKind {
    /// A game.
    Game,
    /// A solution of the game of the text beside it.
    Solution {
        /// The identifier of the node whose part of the game is meant.
        from: Option<u32>,
    },
    /// The winners in a solution of that game.
    Winners,
    /// One automaton, or a stream of automata.
    Automata,
    /// A circuit.
    Circuit,
    /// A lasso, a word, a formula, or a walk; or no text.
    Other,
}

/// Returns what `command` reads this one of its texts as.
pub(crate) fn kind_of(command: &Command, which: Which) -> TextKind
    ensures { result ≡ kind_of command.now which }
{
    let (other, input) = match command {
        Command::OneText(one) => (TextKind::Other, kind_of_one(*one)),
        Command::Stream(_) => (TextKind::Other, TextKind::Automata),
        Command::TwoTexts(two, _) => kinds_of_two(*two),
        Command::Formulas(asked, _) => (TextKind::Other, kind_asked(*asked)),
        Command::Synthesis(_, _) => (TextKind::Other, TextKind::Other),
        Command::FormulaJudge(_, _, _) => (TextKind::Other, TextKind::Automata),
    };
    match which {
        Which::File => other,
        Which::Input => input,
    }
}

/// Returns what `command` reads its one text as.
fn kind_of_one(command: OneText) -> TextKind
    ensures { result ≡ kind_of_one command }
{
    match command {
        OneText::Show
        | OneText::ShowJson
        | OneText::Check
        | OneText::Canon
        | OneText::CanonPart { .. }
        | OneText::CanonLeast { .. }
        | OneText::Solve { .. }
        | OneText::Search { .. }
        | OneText::DrawGame
        | OneText::DrawPart { .. } => TextKind::Game,
        OneText::CheckCircuit
        | OneText::ShowCircuit
        | OneText::ShowCircuitJson
        | OneText::CanonCircuit { .. }
        | OneText::CircuitAutomaton => TextKind::Circuit,
        OneText::Ltl { .. } => TextKind::Other,
        OneText::LtlDeterministic { .. } => TextKind::Other,
        _ => TextKind::Automata,
    }
}

/// Returns what a command that asks formulas reads the text of the input as.
pub(crate) fn kind_asked(asked: Formulas) -> TextKind
    ensures { result ≡ kind_asked asked }
{
    match asked {
        Formulas::Equal { .. } | Formulas::Satisfies { .. } | Formulas::SatisfiesStream { .. } => {
            TextKind::Automata
        }
        Formulas::SatisfiesWord { .. } => TextKind::Other,
    }
}

/// Returns what `command` reads the other text and that of the input as.
fn kinds_of_two(command: TwoTexts) -> (TextKind, TextKind)
    ensures other { result.0 ≡ kind_of_two command File }
    ensures input { result.1 ≡ kind_of_two command Input }
{
    match command {
        TwoTexts::Verify { from, .. } | TwoTexts::VerifyNamed { from } => {
            (TextKind::Game, TextKind::Solution { from })
        }
        TwoTexts::VerifyWinners { .. } => (TextKind::Game, TextKind::Winners),
        TwoTexts::VerifyLasso { .. } => (TextKind::Automata, TextKind::Other),
        TwoTexts::Accepts { .. } | TwoTexts::AcceptsSome { .. } => {
            (TextKind::Other, TextKind::Automata)
        }
        TwoTexts::DrawSolution { from, .. } => (TextKind::Solution { from }, TextKind::Game),
        TwoTexts::DrawWalk { .. } => (TextKind::Other, TextKind::Game),
        _ => (TextKind::Automata, TextKind::Automata),
    }
}
