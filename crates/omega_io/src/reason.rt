ghost use Rattle.std.specs.Prelude.{◌≡◌};
ghost use Rattle.omega_io.specs.Reason.{reason_of, reason_text};

use std::io::ErrorKind;

/// A reason for which the system fails a read or a write, or cannot open a file. Each has the name of its kind of
/// error in `std`.
#[derive(Clone, Copy, Debug, PartialEq, Eq)]
pub enum Reason {
    NotFound,
    PermissionDenied,
    NotADirectory,
    IsADirectory,
    FilesystemLoop,
    InvalidFilename,
    StorageFull,
    QuotaExceeded,
    FileTooLarge,
    ReadOnlyFilesystem,
    /// Nobody reads the pipe that is written to.
    BrokenPipe,
    TimedOut,
    Interrupted,
}

impl Reason {
    /// Returns the reason of an error of this `kind`, or none for the kinds that have no name here.
    pub fn of(kind: ErrorKind) -> Option<Reason>
        ensures { result ≡ reason_of kind }
    {
        match kind {
            ErrorKind::NotFound => Some(Reason::NotFound),
            ErrorKind::PermissionDenied => Some(Reason::PermissionDenied),
            ErrorKind::NotADirectory => Some(Reason::NotADirectory),
            ErrorKind::IsADirectory => Some(Reason::IsADirectory),
            ErrorKind::FilesystemLoop => Some(Reason::FilesystemLoop),
            ErrorKind::InvalidFilename => Some(Reason::InvalidFilename),
            ErrorKind::StorageFull => Some(Reason::StorageFull),
            ErrorKind::QuotaExceeded => Some(Reason::QuotaExceeded),
            ErrorKind::FileTooLarge => Some(Reason::FileTooLarge),
            ErrorKind::ReadOnlyFilesystem => Some(Reason::ReadOnlyFilesystem),
            ErrorKind::BrokenPipe => Some(Reason::BrokenPipe),
            ErrorKind::TimedOut => Some(Reason::TimedOut),
            ErrorKind::Interrupted => Some(Reason::Interrupted),
            _ => None,
        }
    }

    /// Returns the reason in words, as Linux has them.
    pub fn text(self) -> &'static str
        ensures { result.now ≡ reason_text self }
    {
        match self {
            Reason::NotFound => "no such file or directory",
            Reason::PermissionDenied => "permission denied",
            Reason::NotADirectory => "not a directory",
            Reason::IsADirectory => "is a directory",
            Reason::FilesystemLoop => "too many levels of symbolic links",
            Reason::InvalidFilename => "file name too long",
            Reason::StorageFull => "no space left on device",
            Reason::QuotaExceeded => "disk quota exceeded",
            Reason::FileTooLarge => "file too large",
            Reason::ReadOnlyFilesystem => "read-only file system",
            Reason::BrokenPipe => "broken pipe",
            Reason::TimedOut => "connection timed out",
            Reason::Interrupted => "interrupted system call",
        }
    }
}
