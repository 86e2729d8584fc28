//! Laws of what command lines request. The function does nothing and states one law.
ghost use Rattle.omega_cli_command.specs.Laws.{PlainOptionsAreKept};

/// States that options by which something is requested as they are mean what they say: a format is implied only if one
/// would be missing.
pub fn plain_options_are_kept()
    ensures { PlainOptionsAreKept }
{}
