ghost use Rattle.std.specs.Prelude.{◌≡◌, ℕ, ◌+◌, ◌≤◌, List, IfOk, IfErr, length};
ghost use Rattle.omega_text.specs.Limits.{most_text};
ghost use Rattle.omega_io.specs.Failures.{IsTransferRefusal};
ghost use Rattle.omega_io.specs.Reason.{reason_of};
ghost use Rattle.omega_io.specs.declared.unread.Unread.{Unread};

use crate::input::{FromRead, Input};
use crate::reading::read_all;
use crate::reason::Reason;
use crate::unread::Unread;
use omega_text::Refusal;
use std::alloc::Global;
use std::fs::File;
use std::io;
use std::rt::Files;

/// Reads files by their names: games, solutions, lassos and automata.
pub trait InputFiles {
    /// The texts that the file of a name may be read as.
    ghost reads: { Self → List ℕ → List ℕ → Type 0 };

    /// How the file of a name may be refused, and for which reason of the system.
    ghost refuses: { Self → List ℕ → Unread → Type 0 };

    /// Reads the file of this `name`, up to its end or to the first byte past the greatest length of a text.
    fn read_file(&self, alloc: Global, name: &str) -> Result<Vec<u8>, Unread>
        ensures read { IfOk result (λ text. reads self.now name.now text.items) }
        ensures refused { IfErr result (refuses self.now name.now) };
}

/// The files of the machine. Nothing is known of their contents.
#[derive(Drop)]
pub struct HostFiles<'r, R: Files> {
    rt: &'r R,
}

impl<'r, R: Files> HostFiles<'r, R> {
    /// Makes the files that the machine's runtime `rt` opens.
    pub fn new(rt: &'r R) -> HostFiles<'r, R> {
        HostFiles { rt }
    }
}

impl<'r, R: Files> InputFiles for HostFiles<'r, R> {
    ghost reads = { λ _ _ text. length text ≤ most_text + 1 };

    ghost refuses = { λ _ _ unread. IsTransferRefusal unread.refusal };

    /// Reads a file of the machine. Refused with [Refusal::Memory], or with [Refusal::Io] if the file can't be opened
    /// or read.
    fn read_file(&self, alloc: Global, name: &str) -> Result<Vec<u8>, Unread> {
        match File::open(self.rt, name) {
            Ok(file) => {
                let mut input = FromRead::new(file);
                match read_all(alloc, &mut input) {
                    Ok(text) => Ok(text),
                    Err(refusal) => Err(Unread {
                        refusal,
                        reason: input.reason(),
                    }),
                }
            }
            Err(error) => Err(unread_for(error.kind())),
        }
    }
}

/// Returns why a file is not read that can't be opened, by the `kind` of the error.
fn unread_for(kind: io::ErrorKind) -> Unread
    ensures refusal { IsTransferRefusal result.refusal }
    ensures reason { result.reason ≡ reason_of kind }
{
    let refusal = if kind == io::ErrorKind::OutOfMemory {
        Refusal::Memory
    } else {
        Refusal::Io
    };
    Unread {
        refusal,
        reason: Reason::of(kind),
    }
}
