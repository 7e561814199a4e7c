// An exchange of the whole matrix.
ghost use Rattle.std.specs.Prelude.{◌≡◌, ℕ, ◌+◌, ◌*◌, ◌<◌, ◌≤◌, length, take, pos, ◌<ℤ◌, MatchResult};
ghost use Rattle.std.specs.List.{between};
ghost use Rattle.exact.specs.Vectors.{entries};
ghost use Rattle.exact.specs.Bounds.{AllInWidth};
ghost use Rattle.rows.specs.Cells.{cell};
ghost use Rattle.rows.specs.Pivots.{most_columns, RowsExchanged, ExchangeOut, Pivoted, PivotOut};

use crate::OutOfWidth;
use crate::pivot::Pivot;
use crate::scale::Scale;

// The most numbers of a row.
pub const MOST_COLUMNS: usize = 64;

// A copy of the `w` words from `start` on, with zeros after them. The library has no heap, so a row is copied into an array of fixed room.
fn copied(words: &[i64], start: usize, w: usize) -> [i64; MOST_COLUMNS]
    requires { (start + w ≤ length words.now) × (w ≤ most_columns) }
    ensures { take w result ≡ between start (start + w) words.now }
{
    let mut row = [0; MOST_COLUMNS];
    row[0..w].copy_from_slice(&words[start..start + w]);
    row
}

impl Pivot {
    // Rewrites all rows but the pivot row, of which `row` is a copy, and scales that.
    fn exchange_rows(
        self,
        words: &mut [i64],
        count: usize,
        row: &[i64],
        leaving: Scale,
    ) -> Result<(), OutOfWidth>
        requires sizes { (self.rows ≤ count) × (count * self.width ≤ length words.old) × (length row.now ≡ self.width) }
        requires widths { AllInWidth words.old × AllInWidth row.now }
        requires copy { (c : ℕ) → c < self.width → entries row.now c ≡ cell self.width words.old self.row c }
        ensures { MatchResult result (λ _. RowsExchanged leaving.by leaving.divisor self.column self.row self.width count words.old words.new) (λ _. ExchangeOut leaving.by leaving.divisor self.column self.row self.width count words.old) }
    {
        let others = Scale {
            by: row[self.column],
            divisor: leaving.divisor,
        };
        others.rewrite_rows(words, count, row, self.row, self.column)?;
        let start = self.row * self.width;
        leaving.scale_row(&mut words[start..start + self.width])
    }

    // Exchanges the first `count` rows, and answers the new denominator. The pivot row is copied out, since it changes as well.
    pub fn exchange(self, words: &mut [i64], count: usize) -> Result<i64, OutOfWidth>
        requires rows { (self.rows ≤ count) × (count * self.width ≤ length words.old) }
        requires columns { self.width ≤ most_columns }
        requires widths { AllInWidth words.old }
        requires positive { pos 0 <ℤ cell self.width words.old self.row self.column }
        ensures { MatchResult result (λ d. Pivoted self.denominator self.width self.rows count self.first_column self.row self.column words.old words.new d) (λ _. PivotOut self.denominator self.width self.rows count self.first_column self.row self.column words.old) }
    {
        let row = copied(words, self.row * self.width, self.width);
        let common = self.divisor(words);
        let leaving = Scale {
            by: self.denominator,
            divisor: common,
        };
        let next = leaving.scaled(row[self.column])?;
        self.exchange_rows(words, count, &row[0..self.width], leaving)?;
        Ok(next)
    }
}
