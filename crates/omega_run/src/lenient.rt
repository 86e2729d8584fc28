//! Games, and solutions of them, that are read as other tools write them.
ghost use Rattle.std.specs.Prelude.{◌≡◌, ◌+◌, ◌⊎◌, IfOk, IfErr, take};
ghost use Rattle.omega_text.specs.declared.refusal.Refusal.TheVariants.{Memory};
ghost use Rattle.omega_io.specs.declared.refused.Which.TheVariants.{File, Input};
ghost use Rattle.omega_run.specs.Answers.{both_texts};
ghost use Rattle.omega_run.specs.Causes.{kind_of};
ghost use Rattle.omega_run.specs.Lenient.{AreUnread, IsReadAs, IsUnread};

use crate::text_kind::{TextKind, kind_of};
use crate::texts::Texts;
use omega_cli_command::Command;
use omega_io::{Refusal, Refused, Which};
use omega_pg_lenient::{bare_text, strict_game_text};
use std::alloc::Global;

/// Returns what is read in place of the texts of `command`: of the other text, and of that of the input. Refused as a
/// game's text is that is read leniently, or with [Refusal::Memory].
pub(crate) fn strict_texts(
    alloc: Global,
    command: &Command,
    texts: Texts<'_>,
) -> Result<(Vec<u8>, Vec<u8>), Refused>
    ensures other { IfOk result
        (λ read. IsReadAs (kind_of command.now File) texts.entry.other.now read.0.items) }
    ensures input { IfOk result
        (λ read. IsReadAs (kind_of command.now Input) texts.entry.input.now read.1.items) }
    ensures refused { IfErr result
        (AreUnread command.now (both_texts texts.entry.other.now texts.entry.input.now)) }
{
    let other = match strict_text(alloc, kind_of(command, Which::File), texts.other) {
        Ok(text) => text,
        Err(refusal) => return Err(Refused::of(Which::File, refusal)),
    };
    match strict_text(alloc, kind_of(command, Which::Input), texts.input) {
        Ok(input) => Ok((other, input)),
        Err(refusal) => Err(Refused::of(Which::Input, refusal)),
    }
}

/// Returns what is read in place of a text of this kind.
fn strict_text(alloc: Global, kind: TextKind, text: &[u8]) -> Result<Vec<u8>, Refusal>
    ensures read { IfOk result (λ made. IsReadAs kind text.now made.items) }
    ensures refused { IfErr result (λ refusal. (refusal ≡ Memory) ⊎ IsUnread kind text.now refusal) }
{
    match kind {
        TextKind::Game => strict_game_text(alloc, text),
        TextKind::Solution { .. } | TextKind::Winners => bare_text(alloc, text),
        TextKind::Automata | TextKind::Circuit => Ok(Vec::from_slice(alloc, text)?),
        TextKind::Other => Ok(Vec::from_slice(alloc, text)?),
    }
}
