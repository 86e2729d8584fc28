use omega_cli_command::Command;

/// The texts of a command.
#[derive(Clone, Copy)]
pub(crate) struct Texts<'a> {
    /// That of a file, or of the command line; a command of one text does not look at it.
    pub(crate) other: &'a [u8],
    /// That of the input.
    pub(crate) input: &'a [u8],
}

/// A command with its texts, as they are written and as they are read.
#[derive(Clone, Copy)]
pub(crate) struct Held<'a> {
    pub(crate) command: &'a Command,
    pub(crate) written: Texts<'a>,
    pub(crate) read: Texts<'a>,
}
