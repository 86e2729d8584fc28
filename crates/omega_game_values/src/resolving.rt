ghost use Rattle.std.specs.Prelude.{◌≡◌, ◌+◌, ◌≤◌, length, map};
ghost use Rattle.std.specs.List.{list_all};
ghost use Rattle.omega_game_values.specs.private.layout.Columns.{identifiers_of};
ghost use Rattle.omega_text.specs.Limits.{most_number};
ghost use Rattle.omega_game_values.specs.private.layout.Resolving.{is_defined, resolved_in};

use crate::identifiers::place_among;
use indexmap::IndexSet;

/// Replaces each identifier by its place, and returns whether each has one. An identifier without a place stays.
pub(crate) fn resolve(targets: &mut [u32], listed: &IndexSet<u32>, count: usize) -> bool
    requires { length listed.now.keys ≤ most_number + 1 }
    ensures defined { result
        ≡ list_all (is_defined (identifiers_of count listed.now.keys)) targets.old }
    ensures places { targets.new
        ≡ map (resolved_in (identifiers_of count listed.now.keys)) targets.old }
{
    let mut defined = true;
    for target in targets.iter_mut() {
        let place = place_among(listed, count, *target);
        defined = defined & place.is_some();
        *target = place.unwrap_or(*target);
    }
    defined
}
