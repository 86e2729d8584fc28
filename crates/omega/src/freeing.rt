ghost use Rattle.std.specs.Prelude.{◌≡◌, None};

use crate::text::Text;
use std::alloc::Global;

/// Takes a text back, and leaves none in its place.
#[unsafe(no_mangle)]
pub extern "C" fn omega_free(alloc: Global, text: &mut Text)
    ensures { text.new.kept ≡ None }
{
    *text = Text::nothing(alloc);
}
