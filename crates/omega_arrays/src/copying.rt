ghost use Rattle.std.specs.Prelude.{◌≡◌};
ghost use Rattle.omega_arrays.specs.Room.{laid_over};

/// Copies as many items as there is room for, from the first on; the rest of the room is as before.
pub fn copy_into<T: Copy>(items: &[T], room: &mut [T])
    ensures { room.new ≡ laid_over items.now room.old }
{
    let count = items.len().min(room.len());
    room[..count].copy_from_slice(&items[..count]);
}
