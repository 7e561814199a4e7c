// The sizes that numbers are held to.
ghost use Rattle.std.specs.Prelude.{◌≡◌, ◌*ℤ◌, nat_le, unsigned_abs};
ghost use Rattle.exact.specs.Bounds.{width, InWidth};

// The greatest size of a number.
pub const WIDTH: i64 = 134_217_727;

// Whether a number is in width, on either side of 0.
pub fn in_width(number: i64) -> bool
    ensures { result ≡ nat_le (unsigned_abs number) width }
{
    (-WIDTH..=WIDTH).contains(&number)
}

// The product of two numbers in width, which fits.
pub fn product(x: i64, y: i64) -> i64
    requires { InWidth x × InWidth y }
    ensures { result ≡ x *ℤ y }
{
    x * y
}
