ghost use Rattle.std.specs.Prelude.{◌≡◌};
ghost use Rattle.omega_hoa_automaton.specs.Faults.{has_other_version as other_version};

use omega_hoa_syntax::RawAutomaton;

/// Whether the version is not `v1` ([AutomatonFault::Version]).
#[tactic(auto, unfolding(crate::specs::Faults::has_other_version))]
pub(crate) fn has_other_version(raw: &RawAutomaton) -> bool
    ensures { result ≡ other_version raw.now }
{
    raw.version.as_slice() != b"v1".as_slice()
}
