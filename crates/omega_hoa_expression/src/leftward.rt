ghost use Rattle.std.specs.Prelude.{◌≡◌, ◌++◌, ◌∷◌, [], reverse, IfErr, OnErr, OnOk};
ghost use Rattle.omega_text.specs.Cases.{IsMemory};

use omega_text::Refusal;
use std::alloc::Global;
use std::marker::Model;

/// The number of bytes that take no memory.
const ROOM: usize = 128;

/// Bytes that grow to the left. Up to 128 of them take no memory and are never moved.
#[derive(Drop)]
pub(crate) struct Leftward {
    /// The first bytes, from `start` on.
    room: [u8; 128],
    start: usize,
    /// The bytes after those, the last one first.
    following: Vec<u8>,
}

impl Model for Leftward {
    ghost use Rattle.std.specs.Prelude.{List, ◌++◌, ◌≤◌, drop, reverse, ℕ};

    ghost Value = { List ℕ };

    ghost view = { λ l. drop l.start l.room ++ reverse l.following.items };

    ghost invariant = { λ l. l.start ≤ 128 };
}

impl Leftward {
    /// Makes an empty text.
    pub(crate) fn new(alloc: Global) -> Self
        ensures { result ≡ [] }
    {
        Leftward {
            room: [0; 128],
            start: ROOM,
            following: Vec::new(alloc),
        }
    }

    /// Puts `byte` before the other bytes.
    #[inline(always)]
    pub(crate) fn push(&mut self, byte: u8) -> Result<(), Refusal>
        ensures ok { OnOk result (self.new ≡ byte ∷ self.old) }
        ensures err { IfErr result IsMemory }
    {
        if self.start == 0 {
            append_reversed(&mut self.following, &self.room)?;
            self.start = ROOM;
        }
        self.start -= 1;
        self.room[self.start] = byte;
        Ok(())
    }

    /// Puts `text` before the other bytes.
    pub(crate) fn put(&mut self, text: &[u8]) -> Result<(), Refusal>
        ensures ok { OnOk result (self.new ≡ text.now ++ self.old) }
        ensures err { IfErr result IsMemory }
    {
        let mut left = text;
        while let Some((byte, before)) = left.split_last() {
            self.push(*byte)?;
            left = before;
        }
        Ok(())
    }

    /// Appends all bytes to `out`. After a refusal `out` is as before, and these bytes are lost.
    pub(crate) fn append_to(&mut self, out: &mut Vec<u8>) -> Result<(), Refusal>
        ensures ok { OnOk result (out.new.items ≡ out.old.items ++ self.old) }
        ensures same { OnErr result (out.new.items ≡ out.old.items) }
        ensures err { IfErr result IsMemory }
    {
        if self.following.is_empty() {
            let room = self.room.as_slice();
            out.extend_from_slice(&room[self.start..])?;
            return Ok(());
        }
        let room = self.room.as_slice();
        append_reversed(&mut self.following, &room[self.start..])?;
        self.start = ROOM;
        self.following.as_mut_slice().reverse();
        out.extend_from_slice(self.following.as_slice())?;
        Ok(())
    }
}

/// Appends `bytes`, the last one first.
#[inline(never)]
fn append_reversed(following: &mut Vec<u8>, bytes: &[u8]) -> Result<(), Refusal>
    ensures ok { OnOk result (following.new.items ≡ following.old.items ++ reverse bytes.now) }
    ensures err { IfErr result IsMemory }
{
    let mut left = bytes;
    while let Some((byte, before)) = left.split_last() {
        following.push(*byte)?;
        left = before;
    }
    Ok(())
}
