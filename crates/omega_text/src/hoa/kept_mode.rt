ghost use Rattle.std.specs.Prelude.{◌≡◌, ◌-◌, ◌^◌};

use super::kind::HoaKind;
use super::mode::{
    Mode, alias_mode, comment_mode, dash_mode, dashes_mode, digits_mode, first_mode,
    mark_byte_mode, quoted_mode, slash_mode, slashed_mode, star_mode, word_mode,
};
use std::marker::Model;

/// A mode without what it counts.
#[derive(Clone, Copy, Debug, PartialEq, Eq)]
enum Stage {
    Start,
    Word,
    At,
    Alias,
    Digits,
    Quoted,
    Escaped,
    Slash,
    Comment,
    Star,
    Slashed,
    Dash,
    Dashes,
    Mark,
    Whole,
    Blank,
}

/// A `Mode`, as it is kept from byte to byte. Its parts are separate fields, so that a byte changes those that it
/// concerns and leaves the others. Contracts see the mode.
#[derive(Clone, Copy, Debug, PartialEq, Eq)]
pub(crate) struct KeptMode {
    stage: Stage,
    kind: HoaKind,
    count: usize,
}

impl Model for KeptMode {
    ghost use Rattle.std.specs.Prelude.{◌≡◌};
    ghost use Rattle.omega_text.specs.declared.hoa.mode.Mode.{Mode};

    ghost Value = { Mode };

    ghost use Rattle.omega_text.specs.private.hoa.scanning.KeptMode.{mode_of, parts_of};

    ghost view = { mode_of };

    ghost invariant = { λ a. parts_of (mode_of a) ≡ a };

    ghost inverse = { parts_of };

    ghost inverse_ok = { λ a h. h };
}

impl KeptMode {
    ghost use Rattle.omega_text.specs.private.hoa.scanning.Modes.{IsWithin, next_mode};

    /// Takes `mode` apart into the fields that are kept.
    #[inline(always)]
    pub(crate) fn new(mode: Mode) -> KeptMode
        ensures { result ≡ mode }
    {
        let (stage, kind, count) = match mode {
            Mode::Start => (Stage::Start, HoaKind::Identifier, 0),
            Mode::Word(kind) => (Stage::Word, kind, 0),
            Mode::At => (Stage::At, HoaKind::Identifier, 0),
            Mode::Alias => (Stage::Alias, HoaKind::Identifier, 0),
            Mode::Digits => (Stage::Digits, HoaKind::Identifier, 0),
            Mode::Quoted => (Stage::Quoted, HoaKind::Identifier, 0),
            Mode::Escaped => (Stage::Escaped, HoaKind::Identifier, 0),
            Mode::Slash => (Stage::Slash, HoaKind::Identifier, 0),
            Mode::Comment(around) => (Stage::Comment, HoaKind::Identifier, around),
            Mode::Star(around) => (Stage::Star, HoaKind::Identifier, around),
            Mode::Slashed(around) => (Stage::Slashed, HoaKind::Identifier, around),
            Mode::Dash => (Stage::Dash, HoaKind::Identifier, 0),
            Mode::Dashes => (Stage::Dashes, HoaKind::Identifier, 0),
            Mode::Mark(kind, count) => (Stage::Mark, kind, count),
            Mode::Whole(kind) => (Stage::Whole, kind, 0),
            Mode::Blank => (Stage::Blank, HoaKind::Identifier, 0),
        };
        KeptMode { stage, kind, count }
    }

    /// Returns the mode.
    #[inline(always)]
    pub(crate) fn get(self) -> Mode
        ensures { result ≡ self }
    {
        match self.stage {
            Stage::Start => Mode::Start,
            Stage::Word => Mode::Word(self.kind),
            Stage::At => Mode::At,
            Stage::Alias => Mode::Alias,
            Stage::Digits => Mode::Digits,
            Stage::Quoted => Mode::Quoted,
            Stage::Escaped => Mode::Escaped,
            Stage::Slash => Mode::Slash,
            Stage::Comment => Mode::Comment(self.count),
            Stage::Star => Mode::Star(self.count),
            Stage::Slashed => Mode::Slashed(self.count),
            Stage::Dash => Mode::Dash,
            Stage::Dashes => Mode::Dashes,
            Stage::Mark => Mode::Mark(self.kind, self.count),
            Stage::Whole => Mode::Whole(self.kind),
            Stage::Blank => Mode::Blank,
        }
    }

    /// Returns the mode after `byte`, or none if no unit goes on so.
    #[inline(always)]
    pub(crate) fn next(self, byte: u8) -> Option<KeptMode>
        requires { IsWithin (2 ^ 64 - 1) self }
        ensures { result ≡ next_mode self byte }
    {
        match self.stage {
            Stage::Start => first_mode(byte),
            Stage::Word => word_mode(byte),
            Stage::At | Stage::Alias => alias_mode(byte),
            Stage::Digits => digits_mode(byte),
            Stage::Quoted => Some(quoted_mode(byte)),
            Stage::Escaped => Some(KeptMode::new(Mode::Quoted)),
            Stage::Slash => slash_mode(byte),
            Stage::Comment => Some(comment_mode(self.count, byte)),
            Stage::Star => Some(star_mode(self.count, byte)),
            Stage::Slashed => Some(slashed_mode(self.count, byte)),
            Stage::Dash => dash_mode(byte),
            Stage::Dashes => dashes_mode(byte),
            Stage::Mark => mark_byte_mode(self.kind, self.count, byte),
            Stage::Whole | Stage::Blank => None,
        }
    }
}
