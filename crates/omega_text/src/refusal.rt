ghost use Rattle.std.specs.Prelude.{◌≡◌};
ghost use Rattle.omega_text.specs.declared.refusal.Refusal.TheVariants.{Automaton, Circuit, Game, Memory, Task, Text};

use std::alloc::{AllocError, AllocFailed};
use thiserror::Error;

mod automaton;
mod circuit;
mod game;
mod task;
mod text;

pub use automaton::AutomatonFault;
pub use circuit::CircuitFault;
pub use game::GameFault;
pub use task::TaskFault;
pub use text::TextFault;

/// Why a call gave no value. Each refusal has one number and one name in all crates.
#[derive(Clone, Copy, Debug, PartialEq, Eq, Error)]
pub enum Refusal {
    /// 1 to 4: the bytes are no text of the format.
    #[error(transparent)]
    Text(TextFault),
    /// 10 to 14: the specifications make no game.
    #[error(transparent)]
    Game(GameFault),
    /// 20 to 33: the tokens make no automaton.
    #[error(transparent)]
    Automaton(AutomatonFault),
    /// 40 to 59: the task can't be done for this value.
    #[error(transparent)]
    Task(TaskFault),
    /// 60: a request for memory was refused in that call.
    #[error("out of memory")]
    Memory,
    /// 61: a read or a write of the given reader or writer failed in that call.
    #[error("a read or a write failed")]
    Io,
    /// 70 to 78: the lines make no circuit.
    #[error(transparent)]
    Circuit(CircuitFault),
}

impl Refusal {
    ghost use Rattle.omega_text.specs.Refusal.{name_of, number_of, place_of};

    /// Returns the refusal's number, which no other refusal has.
    pub fn number(self) -> u32
        ensures { result ≡ number_of self }
    {
        match self {
            Refusal::Text(fault) => fault.number(),
            Refusal::Game(fault) => fault.number(),
            Refusal::Automaton(fault) => fault.number(),
            Refusal::Task(fault) => fault.number(),
            Refusal::Memory => 60,
            Refusal::Io => 61,
            Refusal::Circuit(fault) => fault.number(),
        }
    }

    /// Returns the refusal's name, as a program prints it.
    pub fn name(self) -> &'static str
        ensures { result.now ≡ name_of self }
    {
        match self {
            Refusal::Text(fault) => fault.name(),
            Refusal::Game(fault) => fault.name(),
            Refusal::Automaton(fault) => fault.name(),
            Refusal::Task(fault) => fault.name(),
            Refusal::Memory => "Memory",
            Refusal::Io => "Io",
            Refusal::Circuit(fault) => fault.name(),
        }
    }

    /// Returns the place of the byte of the fault, from 0, for [TextFault::Lex], [TextFault::Number] and
    /// [TextFault::Syntax], and the number of the state for [TaskFault::NotDeterministic].
    pub fn at(self) -> Option<usize>
        ensures { result ≡ place_of self }
    {
        match self {
            Refusal::Text(fault) => fault.at(),
            Refusal::Task(fault) => fault.at(),
            _ => None,
        }
    }
}

impl From<TextFault> for Refusal {
    ghost from_gives = { λ fault e. e ≡ Text fault };

    fn from(fault: TextFault) -> Refusal {
        Refusal::Text(fault)
    }
}

impl From<GameFault> for Refusal {
    ghost from_gives = { λ fault e. e ≡ Game fault };

    fn from(fault: GameFault) -> Refusal {
        Refusal::Game(fault)
    }
}

impl From<AutomatonFault> for Refusal {
    ghost from_gives = { λ fault e. e ≡ Automaton fault };

    fn from(fault: AutomatonFault) -> Refusal {
        Refusal::Automaton(fault)
    }
}

impl From<TaskFault> for Refusal {
    ghost from_gives = { λ fault e. e ≡ Task fault };

    fn from(fault: TaskFault) -> Refusal {
        Refusal::Task(fault)
    }
}

impl From<CircuitFault> for Refusal {
    ghost from_gives = { λ fault e. e ≡ Circuit fault };

    fn from(fault: CircuitFault) -> Refusal {
        Refusal::Circuit(fault)
    }
}

impl From<AllocError> for Refusal {
    ghost from_gives = { λ _ e. e ≡ Memory };

    fn from(_refused: AllocError) -> Refusal {
        Refusal::Memory
    }
}

impl<T: Drop> From<AllocFailed<T>> for Refusal {
    ghost from_gives = { λ _ e. e ≡ Memory };

    fn from(_refused: AllocFailed<T>) -> Refusal {
        Refusal::Memory
    }
}
