//! The line about an alias that is not defined or is defined twice. Labels that are read show no names of aliases, so
//! these are read from the tokens.

ghost use Rattle.std.specs.Prelude.{◌≡◌, ◌++◌, ◌∷◌, [], List, codes, false};
ghost use Rattle.std.specs.Prelude.{map, option_map, IfOk, IsOkUnless, OnOk};
ghost use Rattle.omega_hoa_syntax.specs.Symbols.{without_last};
ghost use Rattle.omega_hoa_syntax.specs.declared.raw_automaton.RawAutomaton.{RawAutomaton};
ghost use Rattle.omega_text.specs.Lexeme.{lexeme_of};
ghost use Rattle.omega_hoa_diagnostics.specs.Aliases.{alias_line, alias_mentions, first_wrong_alias};
ghost use Rattle.omega_hoa_diagnostics.specs.Aliases.{is_wrong, names_after, wrong_alias_line};
ghost use Rattle.omega_hoa_diagnostics.specs.AutomatonCauses.{WritesAutomaton};
ghost use Rattle.omega_hoa_diagnostics.specs.Finding.{line_about};
ghost use Rattle.omega_hoa_diagnostics.specs.private.AliasReading.{after_beginning, after_name, as_open};
ghost use Rattle.omega_hoa_diagnostics.specs.private.AliasReading.{as_said, names_in, nothing, part_of, step};

use indexmap::IndexSet;
use omega_text::laws::cuts_are_one;
use omega_text::{HoaKind, Refusal, TextCursor, Token, TokenSource};
use std::alloc::Global;
use std::marker::Model;

/// What a text says of an alias.
#[derive(Clone, Copy)]
pub(crate) enum AliasMention<'a> {
    /// A label uses this name.
    Used(&'a [u8]),
    /// An item defines this name.
    Defined(&'a [u8]),
}

/// The part of a text that is open.
#[derive(Clone, Copy)]
pub(crate) enum OpenItem<'a> {
    /// A part that defines no alias.
    Other,
    /// The item of an alias, before its name.
    Alias,
    /// The definition of this name.
    Definition(&'a [u8]),
}

/// What was read of aliases so far.
#[derive(Drop)]
pub(crate) struct AliasReading<'a> {
    open: OpenItem<'a>,
    said: Vec<AliasMention<'a>>,
}

impl<'a> Model for AliasReading<'a> {
    ghost use Rattle.std.specs.Prelude.{map};
    ghost use Rattle.omega_hoa_diagnostics.specs.private.AliasReading.{Reading, as_open, as_said};

    ghost Value = { Reading };

    ghost view = { λ r. record { open_part = as_open r.open; said = map as_said r.said.items } };
}

impl<'a> AliasReading<'a> {
    /// Returns what was read before the first token.
    fn new(alloc: Global) -> Self
        ensures { result ≡ nothing }
    {
        AliasReading {
            open: OpenItem::Other,
            said: Vec::new(alloc),
        }
    }

    /// Returns what is said of aliases, in the order of the text.
    fn mentions(&self) -> &[AliasMention<'a>]
        ensures { map as_said result.now ≡ self.now.said }
    {
        &self.said
    }

    /// Takes one more token.
    fn take(&mut self, token: &Token<'a, HoaKind>) -> Result<(), Refusal>
        ensures taken { OnOk result (self.new ≡ step self.old (lexeme_of token.now)) }
        ensures memory { IsOkUnless result Refusal.Memory }
    {
        match token.kind {
            HoaKind::AliasName => self.take_name(token.text),
            HoaKind::HeaderName => self.begin(part_of(token.text)),
            HoaKind::Body => self.begin(OpenItem::Other),
            _ => Ok(()),
        }
    }

    /// Takes the name of an alias.
    fn take_name(&mut self, name: &'a [u8]) -> Result<(), Refusal>
        ensures taken { OnOk result (self.new ≡ after_name self.old self.old.open_part name.now) }
        ensures memory { IsOkUnless result Refusal.Memory }
    {
        if let OpenItem::Alias = self.open {
            self.open = OpenItem::Definition(name);
            return Ok(());
        }
        self.said.push(AliasMention::Used(name))?;
        Ok(())
    }

    /// Ends the part that is open and begins `part`.
    fn begin(&mut self, part: OpenItem<'a>) -> Result<(), Refusal>
        ensures begun { OnOk result (self.new ≡ after_beginning self.old (as_open part.entry)) }
        ensures memory { IsOkUnless result Refusal.Memory }
    {
        if let OpenItem::Definition(name) = self.open {
            self.said.push(AliasMention::Defined(name))?;
        }
        self.open = part;
        Ok(())
    }
}

/// Returns the part that a header opens; `header` has its colon.
fn part_of(header: &[u8]) -> OpenItem<'static>
    ensures { as_open result ≡ part_of (without_last header.now) }
{
    let name = &header[..header.len().saturating_sub(1)];
    if name == b"Alias".as_slice() {
        OpenItem::Alias
    } else {
        OpenItem::Other
    }
}

/// Returns the line about the first alias that is used where it is not defined, or defined twice.
pub(crate) fn alias_line(alloc: Global, text: &[u8]) -> Result<Vec<u8>, Refusal>
    requires { (raw : RawAutomaton) × WritesAutomaton text.now raw }
    ensures line { IfOk result
        (λ line. (raw : RawAutomaton) → WritesAutomaton text.now raw → line.items ≡ alias_line raw) }
    ensures memory { IsOkUnless result Refusal.Memory }
{
    match read_aliases(alloc, text) {
        Ok(reading) => line_of(alloc, reading.mentions()),
        Err(refusal) => Err(refusal),
    }
}

/// Returns the line about the first of `mentions` that is wrong.
fn line_of(alloc: Global, mentions: &[AliasMention<'_>]) -> Result<Vec<u8>, Refusal>
    ensures line { IfOk result (λ line. line.items
        ≡ line_about wrong_alias_line (first_wrong_alias [] (map as_said mentions.now))) }
    ensures memory { IsOkUnless result Refusal.Memory }
{
    let mut names = IndexSet::new(alloc);
    match first_wrong_alias(mentions, &mut names) {
        Ok(found) => found_line(alloc, found),
        Err(refusal) => Err(refusal),
    }
}

/// Returns the line about a mention that was found to be wrong, or no bytes if none was.
fn found_line(alloc: Global, found: Option<AliasMention<'_>>) -> Result<Vec<u8>, Refusal>
    ensures line { IfOk result
        (λ line. line.items ≡ line_about wrong_alias_line (option_map as_said found.entry)) }
    ensures memory { IsOkUnless result Refusal.Memory }
{
    match found {
        Some(mention) => wrong_alias_line(alloc, mention),
        None => Ok(Vec::new(alloc)),
    }
}

/// Reads what a text says of aliases.
fn read_aliases(alloc: Global, text: &[u8]) -> Result<AliasReading<'_>, Refusal>
    requires { (raw : RawAutomaton) × WritesAutomaton text.now raw }
    ensures said { IfOk result (λ reading. (raw : RawAutomaton) → WritesAutomaton text.now raw
        → reading.said ≡ alias_mentions raw) }
    ensures memory { IsOkUnless result Refusal.Memory }
{
    cuts_are_one::<HoaKind>();
    let mut tokens = TextCursor::<HoaKind>::new(text);
    let mut reading = AliasReading::new(alloc);
    while let Some(token) = tokens.take() {
        reading.take(&token)?;
    }
    Ok(reading)
}

/// Returns the first of `mentions` that uses a name which none before it defines, or defines one again. At the start
/// `names` is empty.
fn first_wrong_alias<'a>(
    mentions: &[AliasMention<'a>],
    names: &mut IndexSet<&'a [u8]>,
) -> Result<Option<AliasMention<'a>>, Refusal>
    requires { names.old.keys ≡ [] }
    ensures first { IfOk result
        (λ found. option_map as_said found ≡ first_wrong_alias [] (map as_said mentions.now)) }
    ensures memory { IsOkUnless result Refusal.Memory }
{
    for mention in mentions {
        if is_wrong(*mention, names)? {
            return Ok(Some(*mention));
        }
    }
    Ok(None)
}

/// Whether `mention` is wrong where `names` are defined. If it is not, the name that it defines is then among them.
#[tactic(auto, using(crate::proofs::Names::among_keys, crate::proofs::Names::one_name_more))]
fn is_wrong<'a>(mention: AliasMention<'a>, names: &mut IndexSet<&'a [u8]>) -> Result<bool, Refusal>
    ensures wrong { IfOk result
        (λ wrong. wrong ≡ is_wrong (names_in names.old.keys) (as_said mention.entry)) }
    ensures names { IfOk result (λ wrong. wrong ≡ false
        → names_in names.new.keys ≡ names_after (names_in names.old.keys) (as_said mention.entry)) }
    ensures memory { IsOkUnless result Refusal.Memory }
{
    match mention {
        AliasMention::Used(name) => Ok(!names.contains(name)),
        AliasMention::Defined(name) => Ok(!names.insert(name)?),
    }
}

/// Returns the line about an alias that is used where it is not defined, or defined twice.
fn wrong_alias_line(alloc: Global, mention: AliasMention<'_>) -> Result<Vec<u8>, Refusal>
    ensures line { IfOk result (λ line. line.items ≡ wrong_alias_line (as_said mention.entry)) }
    ensures memory { IsOkUnless result Refusal.Memory }
{
    let mut line = Vec::new(alloc);
    line.extend_from_slice(b"omega: alias ")?;
    match mention {
        AliasMention::Used(name) => {
            line.extend_from_slice(name)?;
            line.extend_from_slice(b" is not defined\n")?;
        }
        AliasMention::Defined(name) => {
            line.extend_from_slice(name)?;
            line.extend_from_slice(b" is defined twice\n")?;
        }
    }
    Ok(line)
}
