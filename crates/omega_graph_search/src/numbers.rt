ghost use Rattle.std.specs.Prelude.{◌≡◌, ◌-◌, ◌^◌, min, IfOk};
ghost use Rattle.std.specs.List.{range_with_len};

use crate::number_table::NONE;
use std::alloc::{AllocError, Global};

/// Returns the numbers below `count` in rising order. Returns an error if a request for memory is refused.
pub fn numbers_below(alloc: Global, count: u32) -> Result<Vec<u32>, AllocError>
    ensures { IfOk result (λ numbers. numbers.items ≡ range_with_len 0 count) }
{
    (0..count).collect(alloc)
}

/// Returns `length` as a number, at most [`NONE`].
pub fn number_of(length: usize) -> u32
    ensures { result ≡ min length (2 ^ 32 - 1) }
{
    length.min(NONE as usize) as u32
}
