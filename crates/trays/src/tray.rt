// Trays.
ghost use Rattle.std.specs.Prelude.{◌≡◌, ◌≤◌, ◌++◌, length, drop};
ghost use Rattle.trays.specs.Trays.{tray_size};

use words::bounds::MOST_LIMITS;

// How many numbers a call lays on a tray: one for each limit, and two more. They are made in arrays, since the library has no heap.
pub const TRAY: usize = MOST_LIMITS + 2;

// Lays numbers on a tray, which is a slice of the caller that may be longer. Those beyond them are left as they were.
pub fn lay(tray: &mut [i64], numbers: &[i64; TRAY])
    requires { tray_size ≤ length tray.old }
    ensures { tray.new ≡ numbers.now ++ drop tray_size tray.old }
{
    tray[..TRAY].copy_from_slice(numbers);
}
