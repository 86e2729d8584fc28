use crate::header_value::HeaderValue;
use omega_hoa_acceptance::{AccName, RawAcc};
use omega_hoa_label::RawLabel;
use omega_text::{ByteString, Numbers, Seq};

/// An item of a header as it is written (HOA v1, *Header*). Numbers are at most 2,147,483,647; strings are the bytes
/// between their quotes, as they are.
#[derive(Debug, Drop)]
pub enum RawItem {
    /// `States:` and the count.
    States(u32),
    /// `Start:` and the states that are joined by `&`, at least one.
    Start(Numbers),
    /// `AP:`, the count and the names, which may be more or fewer.
    Propositions {
        count: u32,
        names: Seq<ByteString>,
    },
    /// `Alias:`, the name with its `@` and its definition.
    Alias {
        name: ByteString,
        definition: RawLabel,
    },
    /// `Acceptance:`, the count of sets and the formula.
    Acceptance {
        count: u32,
        formula: RawAcc,
    },
    /// `acc-name:`, an identifier and its parameters.
    AccName(AccName),
    /// `tool:` and one or two strings.
    Tool {
        first: ByteString,
        second: Option<ByteString>,
    },
    /// `name:` and a string.
    Name(ByteString),
    /// `properties:` and identifiers.
    Properties(Seq<ByteString>),
    /// Any other header, without its colon, and its values.
    Unknown {
        name: ByteString,
        values: Seq<HeaderValue>,
    },
}
