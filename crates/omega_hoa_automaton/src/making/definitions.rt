ghost use Rattle.std.specs.Prelude.{◌≡◌, [], false, IfErr, OnOk};
ghost use Rattle.omega_hoa_automaton.specs.private.layout.Definitions.{HasDefined, IsUndefinable};

use crate::judging::findings_of;
use omega_hoa_label::RawLabel;
use omega_hoa_label_text::Aliases;
use omega_text::{AutomatonFault, Refusal, Seq};
use std::alloc::Global;

/// The aliases of a header so far, and whether one of their definitions is too deep, or too large.
#[derive(Drop)]
pub(crate) struct Definitions {
    pub aliases: Aliases,
    pub deep: bool,
    pub large: bool,
}

impl Definitions {
    /// Makes an empty list of definitions, which takes no memory.
    pub(crate) fn new(alloc: Global) -> Definitions
        ensures aliases { result.aliases ≡ [] }
        ensures deep { result.deep ≡ false }
        ensures large { result.large ≡ false }
    {
        Definitions {
            aliases: Aliases::new(alloc),
            deep: false,
            large: false,
        }
    }
}

/// Appends an alias. Refused with [AutomatonFault::Alias] if its name is there already or its definition reaches an
/// undefined alias.
pub(crate) fn define(
    alloc: Global,
    definitions: &mut Definitions,
    name: &[u8],
    body: RawLabel,
) -> Result<(), Refusal>
    ensures ok { OnOk result (HasDefined definitions.old name.now body definitions.new) }
    ensures err { IfErr result (IsUndefinable definitions.old name.now body) }
{
    let found = findings_of(alloc, &body, &definitions.aliases)?;
    if found.undefined {
        return Err(Refusal::Automaton(AutomatonFault::Alias));
    }
    definitions.aliases.add(name, body)?;
    definitions.deep = definitions.deep || found.deep;
    definitions.large = definitions.large || found.large;
    Ok(())
}
