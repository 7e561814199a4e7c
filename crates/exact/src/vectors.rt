// Vectors of whole numbers.
ghost use Rattle.std.specs.Prelude.{◌≡◌, ◌≤◌, length};
ghost use Rattle.exact.specs.Bounds.{longest, AllInWidth};
ghost use Rattle.exact.specs.Vectors.{dot, entries};

use crate::bounds::product;

// The dot product of two vectors of the same length. At this length and width no sum on the way overflows.
pub fn dot(a: &[i64], b: &[i64]) -> i64
    requires lengths { (length a.now ≡ length b.now) × (length a.now ≤ longest) }
    requires widths { AllInWidth a.now × AllInWidth b.now }
    ensures { result ≡ dot (length a.now) (entries a.now) (entries b.now) }
{
    // A loop and no chain: a chain's sum of signed numbers has no bound that a proof could use.
    let mut sum = 0;
    for (x, y) in a.iter().zip(b) {
        sum += product(*x, *y);
    }
    sum
}
