ghost use Rattle.std.specs.Prelude.{◌≡◌};
ghost use Rattle.omega_hoa_diagnostics.specs.Finding.{first_beyond};

/// Returns the first of `numbers` that is not below `count`.
pub(crate) fn first_beyond(numbers: &[u32], count: u32) -> Option<u32>
    ensures { result ≡ first_beyond count numbers.now }
{
    for number in numbers {
        if count <= *number {
            return Some(*number);
        }
    }
    None
}
