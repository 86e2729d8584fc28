ghost use Rattle.std.specs.Prelude.{◌≡◌, length};
ghost use Rattle.omega_arrays.specs.Room.{laid_over};

use omega_arrays::copy_into;

/// The version of the library, which is that of the program.
const VERSION: &str = "1.6.0";

/// Writes the version of the library, as many bytes as there is room for, and returns how many it has.
#[unsafe(no_mangle)]
pub extern "C" fn omega_version(room: &mut [u8]) -> usize
    ensures count { result ≡ length VERSION.now }
    ensures written { room.new ≡ laid_over VERSION.now room.old }
{
    let text = VERSION.as_bytes();
    copy_into(text, room);
    text.len()
}
