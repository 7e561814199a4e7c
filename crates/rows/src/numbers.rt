// The numbers that an exchange writes, one at a time.
ghost use Rattle.std.specs.Prelude.{◌≡◌, pos, ◌-ℤ◌, ◌*ℤ◌, ◌<ℤ◌, MatchResult, int_div};
ghost use Rattle.exact.specs.Bounds.{InWidth};

use crate::OutOfWidth;
use exact::bounds::{in_width, product};

// by * x - f * y, which fits for numbers in width.
pub fn difference(by: i64, x: i64, f: i64, y: i64) -> i64
    requires { InWidth by × InWidth x × InWidth f × InWidth y }
    ensures { result ≡ by *ℤ x -ℤ f *ℤ y }
{
    product(by, x) - product(f, y)
}

// number / divisor. Where the divisor is 1 no division is made.
pub fn divided(number: i64, divisor: i64) -> i64
    requires { pos 0 <ℤ divisor }
    ensures { result ≡ int_div number divisor }
{
    if divisor == 1 {
        number
    } else {
        number / divisor
    }
}

// number / divisor, where it is in width.
pub(crate) fn quotient(number: i64, divisor: i64) -> Result<i64, OutOfWidth>
    requires { pos 0 <ℤ divisor }
    ensures { MatchResult result (λ v. (v ≡ int_div number divisor) × InWidth v) (λ _. InWidth (int_div number divisor) → ⊥) }
{
    let result = divided(number, divisor);
    if in_width(result) {
        Ok(result)
    } else {
        Err(OutOfWidth)
    }
}
