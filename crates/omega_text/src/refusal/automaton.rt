ghost use Rattle.std.specs.Prelude.{◌≡◌};

use thiserror::Error;

/// Why tokens in the grammar of HOA make no automaton.
#[derive(Clone, Copy, Debug, PartialEq, Eq, Error)]
pub enum AutomatonFault {
    /// 20: the version is not `v1`.
    #[error("the version is not v1")]
    Version,
    /// 21: an item that may not repeat does.
    #[error("a header item that may not repeat does")]
    RepeatedHeader,
    /// 22: there is no `Acceptance:` item.
    #[error("there is no Acceptance: item")]
    MissingAcceptance,
    /// 23: an unknown header name begins with a capital.
    #[error("an unknown header name begins with a capital")]
    UnknownHeader,
    /// 24: a state number is not below the count of states.
    #[error("a state number is not below the count of states")]
    StateRange,
    /// 25: a set number is not below the count of sets.
    #[error("a set number is not below the count of sets")]
    SetRange,
    /// 26: propositions are miscounted, repeated, out of range or over 1,024.
    #[error("propositions are miscounted, repeated, out of range or over 1024")]
    Proposition,
    /// 27: an alias is used and undefined, or defined twice.
    #[error("an alias is undefined where it is used, or defined twice")]
    Alias,
    /// 28: a state is defined twice.
    #[error("a state is defined twice")]
    StateTwice,
    /// 29: labels are both on a state and its edges, or on some of its edges alone.
    #[error("labels stand both on a state and its edges, or on some of its edges alone")]
    MixedLabels,
    /// 30: the unlabelled edges of a state are not one for each valuation.
    #[error("the unlabelled edges of a state are not one for each valuation")]
    ImplicitCount,
    /// 31: an acceptance atom is neither `Fin` nor `Inf`.
    #[error("an acceptance atom is neither Fin nor Inf")]
    AcceptanceAtom,
    /// 32: an expression is over 256 deep.
    #[error("an expression is over 256 deep")]
    TooDeep,
    /// 33: expanded labels have too many tree nodes.
    #[error("expanded labels have too many tree nodes")]
    Expansion,
}

impl AutomatonFault {
    ghost use Rattle.omega_text.specs.Refusal.{automaton_name, automaton_number};

    /// Returns the fault's number, which no other refusal has.
    pub(crate) fn number(self) -> u32
        ensures { result ≡ automaton_number self }
    {
        match self {
            AutomatonFault::Version => 20,
            AutomatonFault::RepeatedHeader => 21,
            AutomatonFault::MissingAcceptance => 22,
            AutomatonFault::UnknownHeader => 23,
            AutomatonFault::StateRange => 24,
            AutomatonFault::SetRange => 25,
            AutomatonFault::Proposition => 26,
            AutomatonFault::Alias => 27,
            AutomatonFault::StateTwice => 28,
            AutomatonFault::MixedLabels => 29,
            AutomatonFault::ImplicitCount => 30,
            AutomatonFault::AcceptanceAtom => 31,
            AutomatonFault::TooDeep => 32,
            AutomatonFault::Expansion => 33,
        }
    }

    /// Returns the fault's name, as a program prints it.
    pub(crate) fn name(self) -> &'static str
        ensures { result.now ≡ automaton_name self }
    {
        match self {
            AutomatonFault::Version => "Version",
            AutomatonFault::RepeatedHeader => "RepeatedHeader",
            AutomatonFault::MissingAcceptance => "MissingAcceptance",
            AutomatonFault::UnknownHeader => "UnknownHeader",
            AutomatonFault::StateRange => "StateRange",
            AutomatonFault::SetRange => "SetRange",
            AutomatonFault::Proposition => "Proposition",
            AutomatonFault::Alias => "Alias",
            AutomatonFault::StateTwice => "StateTwice",
            AutomatonFault::MixedLabels => "MixedLabels",
            AutomatonFault::ImplicitCount => "ImplicitCount",
            AutomatonFault::AcceptanceAtom => "AcceptanceAtom",
            AutomatonFault::TooDeep => "TooDeep",
            AutomatonFault::Expansion => "Expansion",
        }
    }
}
