ghost use Rattle.std.specs.Prelude.{◌≡◌, Some, false, length, option_and_then, IfErr, IfOk};
ghost use Rattle.std.specs.List.{AllZip, flat_map};
ghost use Rattle.omega_hoa_acceptance.specs.Meaning.{acc_meant};
ghost use Rattle.omega_text.specs.Cases.{IsMemory};
ghost use Rattle.omega_hoa_automaton.specs.Automaton.{edges_from};
ghost use Rattle.omega_hoa_automaton.specs.Meaning.{IsStateOf};
ghost use Rattle.omega_hoa_automaton.specs.private.layout.Draft.{IsSoundAcceptance};
ghost use Rattle.omega_hoa_automaton.specs.private.layout.Findings.{is_faulty, labels_pass};

use crate::making::acceptance::acceptance_of;
use crate::making::edges::count_edges;
use crate::making::states::states_of;
use crate::state::State;
use omega_hoa_acceptance::{Acc, RawAcc};
use omega_hoa_label_text::Aliases;
use omega_hoa_syntax::RawState;
use omega_text::{Refusal, Seq};
use std::alloc::Global;

/// The acceptance, the states that the body defines, and the number of their edges.
#[derive(Drop)]
pub(crate) struct Body {
    pub acceptance: Acc,
    pub defined: Seq<State>,
    pub edge_count: u32,
}

/// Makes the body, with its aliases replaced and its edges counted. Neither the acceptance nor a label has a fault.
pub(crate) fn body_of(
    alloc: Global,
    acceptance: &Option<RawAcc>,
    aliases: &Aliases,
    states: Seq<RawState>,
) -> Result<Body, Refusal>
    requires accepts { IsSoundAcceptance acceptance.now }
    requires sound { labels_pass is_faulty aliases.now states ≡ false }
    ensures accepted { IfOk result
        (λ body. option_and_then acc_meant acceptance.now ≡ Some body.acceptance) }
    ensures made { IfOk result (λ body. AllZip (IsStateOf aliases.now) states body.defined) }
    ensures counted { IfOk result
        (λ body. body.edge_count ≡ length (flat_map edges_from body.defined)) }
    ensures err { IfErr result IsMemory }
{
    let acceptance = acceptance_of(alloc, acceptance)?;
    let defined = states_of(alloc, aliases, states)?;
    match count_edges(defined.as_slice()) {
        Some(edge_count) => Ok(Body {
            acceptance,
            defined,
            edge_count,
        }),
        None => Err(Refusal::Memory),
    }
}
