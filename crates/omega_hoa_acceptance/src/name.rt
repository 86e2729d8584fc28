use omega_text::{ByteString, Seq};

/// The name of an acceptance condition as a header gives it (HOA v1, `acc-name:`): an identifier and its parameters.
#[derive(Debug, PartialEq, Eq)]
pub struct AccName {
    pub name: ByteString,
    pub parameters: Seq<Parameter>,
}

impl Drop for AccName {
    fn drop(self) {
        let AccName {
            name: _,
            parameters: _,
        } = self;
    }
}

/// A parameter of an acceptance name. Parameters are compared by kind and value.
#[derive(Debug, PartialEq, Eq, Drop)]
pub enum Parameter {
    Boolean(bool),
    Number(u32),
    /// An identifier.
    Word(ByteString),
}
