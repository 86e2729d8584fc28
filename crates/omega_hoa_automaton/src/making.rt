//! The meaning of an automaton that is written (docs/formats.md, meaning of an automaton text): a file a part.
ghost use Rattle.std.specs.Prelude.{◌≡◌, [], length, IfErr, IfOk};
ghost use Rattle.std.specs.List.{flat_map};
ghost use Rattle.omega_hoa_automaton.specs.Automaton.{edges_from};
ghost use Rattle.omega_hoa_automaton.specs.Meaning.{IsMeaningless, Means};
ghost use Rattle.omega_hoa_automaton.specs.private.layout.Definitions.{AreNoted};
ghost use Rattle.omega_hoa_automaton.specs.private.layout.Draft.{IsOutlineOf, described};
ghost use Rattle.omega_hoa_automaton.specs.private.layout.Gathered.{HasGathered};

mod acceptance;
mod body;
mod definitions;
mod edges;
mod gathered;
mod items;
mod marks;
mod outline;
mod states;

use crate::automaton::Automaton;
use crate::judging::judge_last;
use crate::making::body::body_of;
use crate::making::items::gather;
use crate::making::outline::{HeaderOutline, outline_of};
pub(crate) use body::Body;
pub(crate) use definitions::Definitions;
pub(crate) use gathered::Gathered;
use omega_hoa_syntax::RawAutomaton;
use omega_text::Refusal;
use std::alloc::Global;

/// Makes the automaton that `raw` means (HOA v1; docs/formats.md, meaning of an automaton text).
///
/// Refused exactly by the `AutomatonFault` with the least number that applies, or with [Refusal::Memory]. More than
/// 4,294,967,295 edges, which no text has, are refused with [Refusal::Memory] too.
///
/// The parts are moved and not copied, except for labels with aliases, which are replaced, and marks that do not rise.
/// Time and memory depend on the length of what is written and on the size of the labels so replaced, and on no number
/// in it.
pub fn automaton_of(alloc: Global, raw: RawAutomaton) -> Result<Automaton, Refusal>
    ensures ok { IfOk result (λ automaton. Means raw automaton) }
    ensures err { IfErr result (IsMeaningless raw) }
{
    let outline = outline_of(alloc, &raw)?;
    let mut gathered = Gathered::new(alloc);
    let mut definitions = Definitions::new(alloc);
    let body = body_with(alloc, &mut gathered, &mut definitions, raw, outline)?;
    Ok(Automaton::of_parts(
        alloc,
        gathered,
        outline.state_count,
        outline.set_count,
        body,
    ))
}

/// Gathers the items, and makes the body if none of the faults 27 to 33 applies. Refused with the least of them, or
/// with [Refusal::Memory].
fn body_with(
    alloc: Global,
    gathered: &mut Gathered,
    definitions: &mut Definitions,
    raw: RawAutomaton,
    outline: HeaderOutline,
) -> Result<Body, Refusal>
    requires outline { IsOutlineOf raw outline }
    requires gathered { HasGathered [] gathered.old }
    requires noted { AreNoted [] definitions.old }
    ensures ok { IfOk result (λ body. Means raw
        (described gathered.new outline.state_count outline.set_count body.acceptance body.defined)) }
    ensures counted { IfOk result
        (λ body. body.edge_count ≡ length (flat_map edges_from body.defined)) }
    ensures err { IfErr result (IsMeaningless raw) }
{
    let RawAutomaton {
        version: _version,
        items,
        states,
    } = raw;
    gather(alloc, gathered, definitions, items)?;
    judge_last(
        alloc,
        definitions,
        states.as_slice(),
        outline.late,
        outline.deep,
    )?;
    body_of(alloc, &gathered.acceptance, &definitions.aliases, states)
}
