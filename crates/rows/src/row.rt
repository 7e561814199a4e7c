// One row, rewritten in place.
ghost use Rattle.std.specs.Prelude.{◌≡◌, ◌<◌, length, MatchResult};
ghost use Rattle.exact.specs.Bounds.{InWidth, AllInWidth};
ghost use Rattle.rows.specs.Rewrites.{RowRewritten, RowOut, RowScaled, ScaledOut};

use crate::OutOfWidth;
use crate::scale::Scale;

impl Scale {
    // Each number x of the row becomes (by * x - f * y) / divisor, where f is the row's number in `column` and y the pivot row's under x.
    pub fn rewrite_row(
        self,
        row: &mut [i64],
        pivot: &[i64],
        column: usize,
    ) -> Result<(), OutOfWidth>
        requires sizes { (length pivot.now ≡ length row.old) × (column < length row.old) }
        requires widths { AllInWidth row.old × AllInWidth pivot.now }
        ensures { MatchResult result (λ _. RowRewritten self.by self.divisor column pivot.now row.old row.new) (λ _. RowOut self.by self.divisor column pivot.now row.old) }
    {
        let f = row[column];
        // The pivot's number by its place: after a zip of `iter_mut` a proof knows nothing of the row.
        for (j, x) in row.iter_mut().enumerate() {
            *x = self.rewritten(f, *x, pivot[j])?;
        }
        Ok(())
    }

    // Each number x of the row becomes by * x / divisor.
    pub fn scale_row(self, row: &mut [i64]) -> Result<(), OutOfWidth>
        requires { AllInWidth row.old }
        ensures { MatchResult result (λ _. RowScaled self.by self.divisor row.old row.new) (λ _. ScaledOut self.by self.divisor row.old) }
    {
        for x in row.iter_mut() {
            *x = self.scaled(*x)?;
        }
        Ok(())
    }
}
