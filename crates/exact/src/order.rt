// The lexicographic order.
ghost use Rattle.std.specs.Prelude.{◌≡◌, length, ◌*ℤ◌};
ghost use Rattle.std.specs.Ordering.{int_cmp};
ghost use Rattle.exact.specs.Bounds.{InWidth, AllInWidth};
ghost use Rattle.exact.specs.Vectors.{entries};
ghost use Rattle.exact.specs.Ranks.{HasSign, Compared};

use crate::bounds::product;
use std::cmp::Ordering;

// A list against zeros: greater where its first number that is not 0 is positive.
pub fn leading_sign(xs: &[i64]) -> Ordering
    ensures { HasSign (length xs.now) (entries xs.now) result }
{
    for x in xs {
        match x.cmp(&0) {
            Ordering::Equal => {}
            sign => return sign,
        }
    }
    Ordering::Equal
}

// x / s against y / t, by multiplying out. A list and its denominator come apart, since a tableau has them in
// different places; a struct of the two would be made for one call only.
fn compare_fractions(x: i64, s: i64, y: i64, t: i64) -> Ordering
    requires { InWidth x × InWidth s × InWidth y × InWidth t }
    ensures { result ≡ int_cmp (t *ℤ x) (s *ℤ y) }
{
    product(t, x).cmp(&product(s, y))
}

// The list xs / s against the list ys / t, for s and t above 0: less where it comes first.
pub fn compare(xs: &[i64], s: i64, ys: &[i64], t: i64) -> Ordering
    requires lengths { length xs.now ≡ length ys.now }
    requires widths { AllInWidth xs.now × InWidth s × AllInWidth ys.now × InWidth t }
    ensures { Compared (length xs.now) (entries xs.now) s (entries ys.now) t result }
{
    for (x, y) in xs.iter().zip(ys) {
        match compare_fractions(*x, s, *y, t) {
            Ordering::Equal => {}
            order => return order,
        }
    }
    Ordering::Equal
}
