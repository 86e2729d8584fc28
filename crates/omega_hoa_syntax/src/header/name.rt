ghost use Rattle.std.specs.Prelude.{◌≡◌};
ghost use Rattle.omega_hoa_syntax.specs.Grammar.{header_named};

use crate::same::is_name;

/// The kind of a header, by its name.
#[derive(Clone, Copy, Debug, PartialEq, Eq)]
pub enum HeaderKind {
    /// `HOA:`, which begins an automaton and is no item.
    Format,
    /// `State:`, which begins a state and is no item.
    State,
    States,
    Start,
    Propositions,
    Alias,
    Acceptance,
    AccName,
    Tool,
    Name,
    Properties,
    /// Any other.
    Unknown,
}

impl HeaderKind {
    /// Returns the kind of the header `name`, which is without its colon.
    pub(crate) fn of_name(name: &[u8]) -> HeaderKind
        ensures { result ≡ header_named name.now }
    {
        if is_name(name, b"HOA".as_slice()) {
            HeaderKind::Format
        } else if is_name(name, b"State".as_slice()) {
            HeaderKind::State
        } else if is_name(name, b"States".as_slice()) {
            HeaderKind::States
        } else if is_name(name, b"Start".as_slice()) {
            HeaderKind::Start
        } else if is_name(name, b"AP".as_slice()) {
            HeaderKind::Propositions
        } else if is_name(name, b"Alias".as_slice()) {
            HeaderKind::Alias
        } else if is_name(name, b"Acceptance".as_slice()) {
            HeaderKind::Acceptance
        } else if is_name(name, b"acc-name".as_slice()) {
            HeaderKind::AccName
        } else if is_name(name, b"tool".as_slice()) {
            HeaderKind::Tool
        } else if is_name(name, b"name".as_slice()) {
            HeaderKind::Name
        } else if is_name(name, b"properties".as_slice()) {
            HeaderKind::Properties
        } else {
            HeaderKind::Unknown
        }
    }
}
