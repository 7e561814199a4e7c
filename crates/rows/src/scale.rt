// What the numbers of a row are multiplied by in an exchange, and what the products are divided by.
ghost use Rattle.std.specs.Prelude.{◌≡◌, pos, ◌<ℤ◌, MatchResult};
ghost use Rattle.exact.specs.Bounds.{InWidth};
ghost use Rattle.rows.specs.Rewrites.{rewritten, scaled};

use crate::OutOfWidth;
use crate::numbers::{difference, quotient};
use exact::bounds::product;

#[derive(Clone, Copy)]
pub struct Scale {
    pub by: i64,
    pub divisor: i64,
    pub ghost in_width: { InWidth by },
    pub ghost positive: { pos 0 <ℤ divisor },
}

impl Scale {
    // (by * x - f * y) / divisor, where it is in width.
    pub fn rewritten(self, f: i64, x: i64, y: i64) -> Result<i64, OutOfWidth>
        requires { InWidth f × InWidth x × InWidth y }
        ensures { MatchResult result (λ v. (v ≡ rewritten self.by self.divisor f x y) × InWidth v) (λ _. InWidth (rewritten self.by self.divisor f x y) → ⊥) }
    {
        quotient(difference(self.by, x, f, y), self.divisor)
    }

    // by * x / divisor, where it is in width.
    pub fn scaled(self, x: i64) -> Result<i64, OutOfWidth>
        requires { InWidth x }
        ensures { MatchResult result (λ v. (v ≡ scaled self.by self.divisor x) × InWidth v) (λ _. InWidth (scaled self.by self.divisor x) → ⊥) }
    {
        quotient(product(self.by, x), self.divisor)
    }
}
