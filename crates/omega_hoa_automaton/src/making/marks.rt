ghost use Rattle.std.specs.Prelude.{IfErr, IfOk, IsTrue};
ghost use Rattle.std.specs.List.Sorted.{IsStrictlyIncreasing};
ghost use Rattle.omega_text.specs.Cases.{IsMemory};
ghost use Rattle.omega_hoa_automaton.specs.Meaning.{AreMarksOf, written_marks};

use omega_text::{Marks, Numbers, Refusal};
use std::alloc::Global;

/// Returns the set of the written marks, rising and each once. If they are written so, they are moved.
#[inline(always)]
pub(crate) fn marks_of(alloc: Global, written: Marks) -> Result<Numbers, Refusal>
    ensures ok { IfOk result (AreMarksOf (written_marks written)) }
    ensures err { IfErr result IsMemory }
{
    match written.into_numbers() {
        Some(sets) => rising_numbers(alloc, sets),
        None => Ok(Numbers::new()),
    }
}

/// Returns `numbers` rising and each once.
#[inline(always)]
fn rising_numbers(alloc: Global, numbers: Numbers) -> Result<Numbers, Refusal>
    ensures ok { IfOk result (AreMarksOf numbers) }
    ensures err { IfErr result IsMemory }
{
    if is_rising(numbers.as_slice()) {
        return Ok(numbers);
    }
    sorted_numbers(alloc, numbers.as_slice())
}

/// Returns `numbers` sorted, each once.
fn sorted_numbers(alloc: Global, numbers: &[u32]) -> Result<Numbers, Refusal>
    ensures ok { IfOk result (AreMarksOf numbers.now) }
    ensures err { IfErr result IsMemory }
{
    let mut rising = Vec::from_slice(alloc, numbers)?;
    rising.sort_unstable();
    rising.dedup();
    let marks = Numbers::from_slice(alloc, rising.as_slice())?;
    Ok(marks)
}

/// Whether each number is below the next.
fn is_rising(numbers: &[u32]) -> bool
    ensures { IsTrue result → IsStrictlyIncreasing numbers.now }
{
    for at in 1..numbers.len() {
        if numbers[at - 1] >= numbers[at] {
            return false;
        }
    }
    true
}
