//! The lanes of words in which literals hold. A lane is that of a valuation, 64 to a block.

ghost use Rattle.std.specs.Prelude.{◌≡◌, ◌<◌};
ghost use Rattle.omega_hoa_satisfiable.specs.private.LiteralLanes.{AreAgreeing, hold_in, lanes_if};
ghost use Rattle.omega_hoa_satisfiable.specs.private.LiteralLanes.{lanes_in as block_lanes};

use crate::literals::Literals;
use crate::mentioned::mask;

/// Returns the lanes in which the literals of the propositions below six hold.
pub(crate) fn low_lanes(literals: Literals) -> u64
    ensures { AreAgreeing literals 6 result }
{
    let mut lanes = u64::MAX;
    for p in 0..6 {
        let held = lanes_if(literals.held, p, mask(p));
        let unheld = lanes_if(literals.unheld, p, mask(p) ^ u64::MAX);
        lanes &= held & unheld;
    }
    lanes
}

/// Returns the lanes of `block` in which all literals hold. Those of the first six propositions hold in `lanes`.
pub(crate) fn lanes_in(literals: Literals, lanes: u64, block: u64) -> u64
    ensures { result ≡ block_lanes literals lanes block }
{
    if hold_in(literals, block) { lanes } else { 0 }
}

/// Whether the literals of the propositions from six on hold in the valuations of `block`.
fn hold_in(literals: Literals, block: u64) -> bool
    ensures { result ≡ hold_in literals block }
{
    (literals.held >> 6) & !block == 0 && (literals.unheld >> 6) & block == 0
}

/// Returns `word` if the bit `p` is set, otherwise all lanes.
fn lanes_if(bits: u64, p: usize, word: u64) -> u64
    requires { p < 64 }
    ensures { result ≡ lanes_if bits p word }
{
    if (bits >> p) & 1 == 1 { word } else { u64::MAX }
}
