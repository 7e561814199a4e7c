// All rows of a matrix but one, rewritten in place.
ghost use Rattle.std.specs.Prelude.{◌≡◌, ◌*◌, ◌<◌, ◌≤◌, length, MatchResult};
ghost use Rattle.exact.specs.Bounds.{AllInWidth};
ghost use Rattle.rows.specs.Rewrites.{RowsRewritten, RowsOut};

use crate::OutOfWidth;
use crate::scale::Scale;

impl Scale {
    // Rewrites the first `count` rows of `words` but row `pivot_row`, each as long as `pivot`.
    pub fn rewrite_rows(
        self,
        words: &mut [i64],
        count: usize,
        pivot: &[i64],
        pivot_row: usize,
        column: usize,
    ) -> Result<(), OutOfWidth>
        requires sizes { (count * length pivot.now ≤ length words.old) × (column < length pivot.now) }
        requires widths { AllInWidth words.old × AllInWidth pivot.now }
        ensures { MatchResult result (λ _. RowsRewritten self.by self.divisor column pivot_row (length pivot.now) count pivot.now words.old words.new) (λ _. RowsOut self.by self.divisor column pivot_row (length pivot.now) count pivot.now words.old) }
    {
        let w = pivot.len();
        // Each row is lent to be written as a part of the words.
        for r in 0..count {
            if r == pivot_row {
                continue;
            }
            let start = r * w;
            self.rewrite_row(&mut words[start..start + w], pivot, column)?;
        }
        Ok(())
    }
}
