use omega_text::ByteString;

/// The names that a command line gives to the system and to the environment, each list if it is given.
#[derive(Clone, Copy, Debug)]
pub struct GivenNames<'a> {
    /// The names that the system controls.
    pub outs: Option<&'a [ByteString]>,
    /// The names that the environment controls.
    pub ins: Option<&'a [ByteString]>,
}
