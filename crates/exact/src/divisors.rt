// Greatest common divisors.
ghost use Rattle.std.specs.Prelude.{suc, length, pos, ◌<ℤ◌};
ghost use Rattle.exact.specs.Vectors.{entries, first_then};
ghost use Rattle.exact.specs.Divisors.{Gcd, GcdOfTwo};

// The greatest common divisor of two sizes, by Euclid's algorithm: no library at hand has one, and a recursion would be as long and take more of the stack.
fn euclid(a: u64, b: u64) -> u64
    ensures { GcdOfTwo (pos a) (pos b) (pos result) }
{
    let mut x = a;
    let mut y = b;
    while y != 0 {
        let rest = x % y;
        x = y;
        y = rest;
    }
    x
}

// The greatest common divisor of `first`, which is above 0, and all of the numbers. Nothing is left to look at once it is 1.
pub fn divisor(first: i64, numbers: &[i64]) -> i64
    requires { pos 0 <ℤ first }
    ensures greatest { Gcd (suc (length numbers.now)) (first_then first (entries numbers.now)) result }
    ensures positive { pos 0 <ℤ result }
{
    let mut common = first.unsigned_abs();
    for number in numbers {
        if common == 1 {
            return 1;
        }
        common = euclid(number.unsigned_abs(), common);
    }
    // The cast keeps the number: it is at most `first`.
    common as i64
}
