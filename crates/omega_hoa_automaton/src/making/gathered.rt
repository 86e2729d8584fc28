ghost use Rattle.std.specs.Prelude.{◌≡◌, ◌++◌, [], None, Some, IfErr, OnOk};
ghost use Rattle.std.specs.Option.{option_or};
ghost use Rattle.omega_text.specs.Cases.{IsMemory};
ghost use Rattle.omega_hoa_automaton.specs.private.layout.Gathered.{HasTaken};

use crate::header::Header;
use crate::tool::Tool;
use omega_hoa_acceptance::{AccName, RawAcc};
use omega_hoa_syntax::RawItem;
use omega_text::{ByteString, Numbers, Refusal, Seq};
use std::alloc::Global;

/// What the items of a header say, without the count of states and the aliases. If an item that may not repeat does,
/// the first one counts.
#[derive(Drop)]
pub(crate) struct Gathered {
    pub tool: Option<Tool>,
    pub name: Option<ByteString>,
    pub starts: Vec<Numbers>,
    pub propositions: Option<Seq<ByteString>>,
    pub acc_name: Option<AccName>,
    pub acceptance: Option<RawAcc>,
    pub properties: Vec<ByteString>,
    pub unknown: Vec<Header>,
}

impl Gathered {
    /// Makes the record of no items, which takes no memory.
    pub(crate) fn new(alloc: Global) -> Gathered
        ensures tool { result.tool ≡ None }
        ensures name { result.name ≡ None }
        ensures starts { result.starts.items ≡ [] }
        ensures propositions { result.propositions ≡ None }
        ensures acc_name { result.acc_name ≡ None }
        ensures acceptance { result.acceptance ≡ None }
        ensures properties { result.properties.items ≡ [] }
        ensures unknown { result.unknown.items ≡ [] }
    {
        Gathered {
            tool: None,
            name: None,
            starts: Vec::new(alloc),
            propositions: None,
            acc_name: None,
            acceptance: None,
            properties: Vec::new(alloc),
            unknown: Vec::new(alloc),
        }
    }

    /// Adds what `item` says, unless it is a count of states or an alias.
    pub(crate) fn take(&mut self, item: RawItem) -> Result<(), Refusal>
        ensures ok { OnOk result (HasTaken self.old item self.new) }
        ensures err { IfErr result IsMemory }
    {
        match item {
            RawItem::States(_count) => {}
            RawItem::Alias {
                name: _name,
                definition: _definition,
            } => {}
            RawItem::Start(states) => self.starts.push(states)?,
            RawItem::Propositions {
                count: _count,
                names,
            } => keep_first(&mut self.propositions, names),
            RawItem::Acceptance {
                count: _count,
                formula,
            } => keep_first(&mut self.acceptance, formula),
            RawItem::AccName(name) => keep_first(&mut self.acc_name, name),
            RawItem::Tool { first, second } => keep_first(
                &mut self.tool,
                Tool {
                    name: first,
                    version: second,
                },
            ),
            RawItem::Name(name) => keep_first(&mut self.name, name),
            RawItem::Properties(words) => put_all(&mut self.properties, words)?,
            RawItem::Unknown { name, values } => self.unknown.push(Header { name, values })?,
        }
        Ok(())
    }
}

/// Keeps `value` if no value is kept yet.
fn keep_first<T: Drop>(kept: &mut Option<T>, value: T)
    ensures { kept.new ≡ option_or kept.old (Some value) }
{
    if kept.is_none() {
        *kept = Some(value);
    }
}

/// Appends `more` to `words`. If `words` is empty, as at the first item, all are moved at once.
fn put_all(words: &mut Vec<ByteString>, more: Seq<ByteString>) -> Result<(), Refusal>
    ensures ok { OnOk result (words.new.items ≡ words.old.items ++ more) }
    ensures err { IfErr result IsMemory }
{
    if words.is_empty() {
        *words = more.into_vec();
        return Ok(());
    }
    for word in more.into_vec() {
        words.push(word)?;
    }
    Ok(())
}
