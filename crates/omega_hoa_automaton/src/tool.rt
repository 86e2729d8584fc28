use omega_text::ByteString;

/// The tool that wrote an automaton (HOA v1, `tool:`): the bytes of one or two strings between their quotes,
/// as they are.
#[derive(Debug)]
pub struct Tool {
    pub name: ByteString,
    /// The second string, as a rule the version.
    pub version: Option<ByteString>,
}

impl Drop for Tool {
    fn drop(self) {
        let Tool {
            name: _,
            version: _,
        } = self;
    }
}
