//! The rounds of an automaton of which it can be asked if it is realizable.

ghost use Rattle.std.specs.Prelude.{◌≡◌, [], IfErr, IfNone, IfOk, IfSome, OnOk};
ghost use Rattle.omega_hoa_automaton.specs.AcceptanceKind.{HasKind};
ghost use Rattle.omega_hoa_acceptance.specs.declared.kind.AccKind.TheVariants as kinds;
ghost use Rattle.omega_synth_rounds.specs.Rounds.{IsRounds};
ghost use Rattle.omega_lang_runs.specs.Lasso.{IsStart};
ghost use Rattle.omega_synth_game.specs.Laws.{IsParted};
ghost use Rattle.omega_synth_realize.specs.Refusing.{IsJudgeable, IsPartingRefusal};

use crate::posing::deterministic_parity_kind;
use omega_hoa_acceptance::ParityKind;
use omega_hoa_automaton::Automaton;
use omega_synth_game::rounds_of;
use omega_synth_rounds::Rounds;
use omega_text::{Numbers, Refusal, Seq};
use std::alloc::Global;

/// The rounds of an automaton, with a letter for each question, and its start.
#[derive(Drop)]
pub(crate) struct Parted {
    pub(crate) rounds: Rounds,
    pub(crate) letters: Seq<Numbers>,
    pub(crate) start: u32,
}

/// Returns the rounds of `automaton` where the system controls the propositions `controlled`, or none if there is no
/// start. Fails as `deterministic_parity_kind` and `rounds_of` do.
pub(crate) fn parted_rounds(
    alloc: Global,
    automaton: &Automaton,
    controlled: &[u32],
) -> Result<Option<Parted>, Refusal>
    ensures parted { IfOk result (λ found. IfSome found
        (λ parted. IsParted automaton.now controlled.now parted.rounds parted.letters parted.start)) }
    ensures rounds { IfOk result (λ found. IfSome found (λ parted. IsRounds parted.rounds)) }
    ensures none { IfOk result (λ found. IfNone found (automaton.now.starts ≡ [])) }
    ensures judgeable { OnOk result (IsJudgeable automaton.now) }
    ensures refused { IfErr result (IsPartingRefusal automaton.now controlled.now) }
{
    let kind = deterministic_parity_kind(alloc, automaton)?;
    automaton.keeps_limits();
    match automaton.starts().first() {
        None => Ok(None),
        Some(first) => {
            let start = first.as_slice()[0];
            let parted = parted_from(alloc, automaton, controlled, kind, start)?;
            Ok(Some(parted))
        }
    }
}

/// Returns the rounds of `automaton`, whose only start is `start`. Fails as `rounds_of` does.
fn parted_from(
    alloc: Global,
    automaton: &Automaton,
    controlled: &[u32],
    kind: ParityKind,
    start: u32,
) -> Result<Parted, Refusal>
    requires judgeable { IsJudgeable automaton.now }
    requires kind { HasKind automaton.now (kinds.Parity kind) }
    requires start { IsStart automaton.now start }
    ensures parted { IfOk result
        (λ parted. IsParted automaton.now controlled.now parted.rounds parted.letters parted.start) }
    ensures rounds { IfOk result (λ parted. IsRounds parted.rounds) }
    ensures refused { IfErr result (IsPartingRefusal automaton.now controlled.now) }
{
    automaton.keeps_limits();
    let made = rounds_of(alloc, automaton, kind, controlled)?;
    Ok(Parted {
        rounds: made.rounds,
        letters: made.letters,
        start,
    })
}
