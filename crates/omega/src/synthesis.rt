ghost use Rattle.std.specs.Prelude.{IfErr, IfOk, ◌≡◌};
ghost use Rattle.omega_answers_synth.specs.FormulaRefusing.{IsFormulaRealizeRefusal};
ghost use Rattle.omega_answers_synth.specs.FormulaWinner.{IsFormulaWinnerAnswer};
ghost use Rattle.omega_answers_synth.specs.Outputs.{lists_of};
ghost use Rattle.omega_text.specs.Cases.{or_memory};
ghost use Rattle.omega.specs.Giving.{IsOneRefused, IsVerdictOutcome};
ghost use Rattle.omega.specs.Solving.{asks};
ghost use Rattle.omega.specs.Synthesis.{lists_by, names_of, one_list};

use crate::giving::give_verdict;
use crate::running::words::first_nul;
use crate::solving::asks;
use crate::text::Text;
use crate::text_outcome::TextOutcome;
use omega_answers_synth::{GivenNames, write_formula_winner};
use omega_io::Exit;
use omega_text::{ByteString, Refusal};
use std::alloc::{AllocError, Global};

/// Decides whether some system satisfies the formula of `formula`, whatever its environment gives. `names` lists the
/// names that the system controls, each ended by a NUL; with `inputs` not 0, those that the environment controls. All
/// other names of the formula are the other side's. Writes 1 into `verdict` and gives the canonical text of a
/// controller, or writes 0 and gives that of a counter-strategy; either is judged before it is given.
///
/// The number of the outcome is 0, or that of the [Refusal::Text] of the formula, [AutomatonFault::TooDeep],
/// [TaskFault::Controllable] if a name is listed that the formula does not have, [Refusal::Memory], or that of a
/// refusal of `realize` for a formula. Unless it is 0, `verdict` and `out` stay.
#[unsafe(no_mangle)]
pub extern "C" fn omega_realize_formula(
    alloc: Global,
    formula: &[u8],
    names: &[u8],
    inputs: u8,
    verdict: &mut u32,
    out: &mut Text,
) -> TextOutcome
    ensures { IsVerdictOutcome
        (IsFormulaWinnerAnswer formula.now (lists_by (asks inputs) names.now))
        (IsOneRefused (IsFormulaRealizeRefusal formula.now (lists_by (asks inputs) names.now)))
        result verdict.old verdict.new out.old out.new }
{
    match formula_winner(alloc, formula, names, asks(inputs)) {
        Ok((exit, output)) => give_verdict(alloc, exit, output, verdict, out),
        Err(refusal) => TextOutcome::of_one(refusal),
    }
}

/// Returns the winner's automaton for the formula, where the text of the names lists those of one side.
fn formula_winner(
    alloc: Global,
    formula: &[u8],
    names: &[u8],
    inputs: bool,
) -> Result<(Exit, Vec<u8>), Refusal>
    ensures answer { IfOk result
        (λ made. IsFormulaWinnerAnswer formula.now (lists_by inputs names.now) made.0 made.1.items) }
    ensures refused { IfErr result
        (or_memory (IsFormulaRealizeRefusal formula.now (lists_by inputs names.now))) }
{
    let listed = listed_names(alloc, names)?;
    write_formula_winner(alloc, formula, one_list(inputs, listed.as_slice()))
}

/// Lends names as those of one side.
pub(crate) fn one_list(inputs: bool, names: &[ByteString]) -> GivenNames<'_>
    ensures { lists_of result ≡ one_list inputs names.now }
{
    if inputs {
        GivenNames {
            outs: None,
            ins: Some(names),
        }
    } else {
        GivenNames {
            outs: Some(names),
            ins: None,
        }
    }
}

/// Returns the names that a text lists, each ended by a NUL.
pub(crate) fn listed_names(alloc: Global, text: &[u8]) -> Result<Vec<ByteString>, AllocError>
    ensures { IfOk result (λ names. names.items ≡ names_of text.now) }
{
    let mut names = Vec::new(alloc);
    let mut rest = text;
    while let Some(end) = first_nul(rest) {
        names.push(ByteString::from_slice(alloc, &rest[..end])?)?;
        rest = &rest[end + 1..];
    }
    Ok(names)
}
