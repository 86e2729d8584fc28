ghost use Rattle.std.specs.Prelude.{◌≡◌};

use thiserror::Error;

/// Why a task can't be done for a value that was read.
#[derive(Clone, Copy, Debug, PartialEq, Eq, Error)]
pub enum TaskFault {
    /// 40: the acceptance is not one whose emptiness is decided.
    #[error("the acceptance is not one whose emptiness is decided")]
    NotParity,
    /// 41: an edge or a start lists two or more states.
    #[error("an edge or a start lists two or more states")]
    UniversalBranch,
    /// 42: a label mentions over 12 propositions.
    #[error("a label mentions over 12 propositions")]
    TooManyPropositions,
    /// 50: nodes times losing priorities are over 67,108,864.
    #[error("nodes times losing priorities are over 67108864")]
    TooWide,
    /// 51: the budget is used up and a lift is due.
    #[error("the budget is used up and a lift is due")]
    Budget,
    /// 53: the text is no solution of the game.
    #[error("the text is no solution of the game")]
    BadSolution,
    /// 54: no node of the game has the identifier.
    #[error("no node of the game has the identifier")]
    UnknownNode,
    /// 55: the automaton would have over 1,048,576 states or over 8,388,608 edges.
    #[error("the automaton would have over 1048576 states or 8388608 edges")]
    TooLarge,
    /// 56: two starts, or two edges of this state that can be taken at one letter.
    #[error("the automaton is not deterministic at state {0}")]
    NotDeterministic(usize),
    /// 58: `controllable-AP:` is missing or stands twice, or names a proposition twice or one that there is not.
    #[error("controllable-AP: is missing, repeats, or names a proposition twice or one that there is not")]
    Controllable,
    /// 59: what a search found is not what was asked for, which is a fault of the program.
    #[error("what was found is not what was asked for: a fault of the program")]
    Unjudged,
}

impl TaskFault {
    ghost use Rattle.omega_text.specs.Refusal.{task_name, task_number, task_place};

    /// Returns the fault's number, which no other refusal has.
    pub(crate) fn number(self) -> u32
        ensures { result ≡ task_number self }
    {
        match self {
            TaskFault::NotParity => 40,
            TaskFault::UniversalBranch => 41,
            TaskFault::TooManyPropositions => 42,
            TaskFault::TooWide => 50,
            TaskFault::Budget => 51,
            TaskFault::BadSolution => 53,
            TaskFault::UnknownNode => 54,
            TaskFault::TooLarge => 55,
            TaskFault::NotDeterministic(_) => 56,
            TaskFault::Controllable => 58,
            TaskFault::Unjudged => 59,
        }
    }

    /// Returns the fault's name, as a program prints it.
    pub(crate) fn name(self) -> &'static str
        ensures { result.now ≡ task_name self }
    {
        match self {
            TaskFault::NotParity => "NotParity",
            TaskFault::UniversalBranch => "UniversalBranch",
            TaskFault::TooManyPropositions => "TooManyPropositions",
            TaskFault::TooWide => "TooWide",
            TaskFault::Budget => "Budget",
            TaskFault::BadSolution => "BadSolution",
            TaskFault::UnknownNode => "UnknownNode",
            TaskFault::TooLarge => "TooLarge",
            TaskFault::NotDeterministic(_) => "NotDeterministic",
            TaskFault::Controllable => "Controllable",
            TaskFault::Unjudged => "Unjudged",
        }
    }

    /// Returns the number of the state for [TaskFault::NotDeterministic], and nothing for another fault.
    pub(crate) fn at(self) -> Option<usize>
        ensures { result ≡ task_place self }
    {
        match self {
            TaskFault::NotDeterministic(state) => Some(state),
            _ => None,
        }
    }
}
