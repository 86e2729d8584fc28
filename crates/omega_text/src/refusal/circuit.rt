ghost use Rattle.std.specs.Prelude.{◌≡◌};

use thiserror::Error;

/// Why the lines of a text make no circuit (AIGER 1.9).
#[derive(Clone, Copy, Debug, PartialEq, Eq, Error)]
pub enum CircuitFault {
    /// 70: the header's counts do not fit its greatest variable, or that is over 16,777,216.
    #[error("the counts do not fit the greatest variable, or that is over 16777216")]
    Variables,
    /// 71: a literal is over that of the greatest variable, or a delta is too great.
    #[error("a literal is over that of the greatest variable")]
    LiteralRange,
    /// 72: an input, a latch or a gate is odd, 0, or defined twice.
    #[error("an input, a latch or a gate is negated, constant, or defined twice")]
    Defined,
    /// 73: a literal is used whose variable no input, latch or gate has.
    #[error("a literal is used that nothing defines")]
    Undefined,
    /// 74: a gate uses itself, through gates.
    #[error("a gate uses itself")]
    Cycle,
    /// 75: the reset of a latch is neither 0 nor 1.
    #[error("the reset of a latch is neither 0 nor 1")]
    Reset,
    /// 76: a symbol names what there is not, or names something twice.
    #[error("a symbol names what there is not, or names something twice")]
    Symbol,
    /// 77: there are bad states, constraints, justice properties or fairness constraints.
    #[error("there are bad states, constraints, justice properties or fairness constraints")]
    Properties,
    /// 78: a name of an input or an output cannot be written in the other format.
    #[error("a name of an input or an output cannot be written")]
    Name,
}

impl CircuitFault {
    ghost use Rattle.omega_text.specs.Refusal.{circuit_name, circuit_number};

    /// Returns the fault's number, which no other refusal has.
    pub(crate) fn number(self) -> u32
        ensures { result ≡ circuit_number self }
    {
        match self {
            CircuitFault::Variables => 70,
            CircuitFault::LiteralRange => 71,
            CircuitFault::Defined => 72,
            CircuitFault::Undefined => 73,
            CircuitFault::Cycle => 74,
            CircuitFault::Reset => 75,
            CircuitFault::Symbol => 76,
            CircuitFault::Properties => 77,
            CircuitFault::Name => 78,
        }
    }

    /// Returns the fault's name, as a program prints it.
    pub(crate) fn name(self) -> &'static str
        ensures { result.now ≡ circuit_name self }
    {
        match self {
            CircuitFault::Variables => "Variables",
            CircuitFault::LiteralRange => "LiteralRange",
            CircuitFault::Defined => "Defined",
            CircuitFault::Undefined => "Undefined",
            CircuitFault::Cycle => "Cycle",
            CircuitFault::Reset => "Reset",
            CircuitFault::Symbol => "Symbol",
            CircuitFault::Properties => "Properties",
            CircuitFault::Name => "Name",
        }
    }
}
