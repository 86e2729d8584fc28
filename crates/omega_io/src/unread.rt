use crate::reason::Reason;
use omega_text::Refusal;

/// Why a file is not read.
#[derive(Clone, Copy, Debug, PartialEq, Eq)]
pub struct Unread {
    /// The refusal: [Refusal::Memory], or [Refusal::Io] if the file can't be opened or read.
    pub refusal: Refusal,
    /// The system's reason for [Refusal::Io], if it tells one.
    pub reason: Option<Reason>,
}
