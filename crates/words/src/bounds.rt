// The bounds on a plant's counts and numbers.
ghost use Rattle.std.specs.Prelude.{◌≡◌, Decides};
ghost use Rattle.words.specs.Bounds.{in_bounds, Value};

pub const MOST_COMMANDS: usize = 4;

pub const MOST_LIMITS: usize = 16;

pub const MOST_READINGS: usize = 3;

// The largest size of a gain, a coefficient, a constant or a slope.
pub const LARGEST_VALUE: i32 = 10_000;

// Is it a number of a plant?
pub fn is_value(number: i32) -> bool
    ensures test { result ≡ in_bounds number }
    ensures value { Decides result (Value number) }
{
    (-LARGEST_VALUE..=LARGEST_VALUE).contains(&number)
}
