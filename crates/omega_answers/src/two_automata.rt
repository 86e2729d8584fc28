ghost use Rattle.std.specs.Prelude.{IfErr, IfOk};
ghost use Rattle.omega_hoa.specs.Alone.{IsAutomatonText};
ghost use Rattle.omega_answers.specs.TwoAutomata.{IsEitherUnread};

use omega_hoa::read_one;
use omega_hoa_automaton::Automaton;
use omega_io::{Refused, Which};
use std::alloc::Global;

/// The automata of two texts.
#[derive(Drop)]
pub struct TwoAutomata {
    /// That of the file.
    pub file: Automaton,
    /// That of the input.
    pub input: Automaton,
}

/// Reads the automaton of `file`, and then that of `input`. Fails with the [Refusal::Text] or [Refusal::Automaton] of
/// the first of the two texts that is refused.
pub fn read_two(alloc: Global, file: &[u8], input: &[u8]) -> Result<TwoAutomata, Refused>
    ensures file { IfOk result (λ read. IsAutomatonText file.now read.file) }
    ensures input { IfOk result (λ read. IsAutomatonText input.now read.input) }
    ensures refused { IfErr result (IsEitherUnread file.now input.now) }
{
    match read_one(alloc, file) {
        Ok(second) => match read_one(alloc, input) {
            Ok(first) => Ok(TwoAutomata {
                file: second,
                input: first,
            }),
            Err(refusal) => Err(Refused::of(Which::Input, refusal)),
        },
        Err(refusal) => Err(Refused::of(Which::File, refusal)),
    }
}
