// Where a matrix is exchanged, and the greatest common divisor of the numerators that the exchange makes.
ghost use Rattle.std.specs.Prelude.{◌≡◌, ℕ, ◌+◌, ◌*◌, ◌/◌, ◌%◌, ◌<◌, ◌≤◌, length, pos, ◌<ℤ◌};
ghost use Rattle.exact.specs.Vectors.{entries};
ghost use Rattle.exact.specs.Bounds.{InWidth, AllInWidth};
ghost use Rattle.rows.specs.Cells.{cell};
ghost use Rattle.rows.specs.Pivots.{most_rows, numerator_of, PivotDivisor};

use crate::numbers::difference;
use exact::bounds::product;
use exact::divisors::divisor;

// The most rows, and columns, of which the numerators are taken.
pub const MOST_ROWS: usize = 4;

const MOST_NUMERATORS: usize = MOST_ROWS * MOST_ROWS;

// Rows of `width` numbers each, over the denominator. The first `rows` of them are those of the basis, whose own columns lie from `first_column` on; `row` is one of them, and leaves at `column`.
#[derive(Clone, Copy)]
pub struct Pivot {
    pub width: usize,
    pub rows: usize,
    pub first_column: usize,
    pub row: usize,
    pub column: usize,
    pub denominator: i64,
    pub ghost few: { rows ≤ most_rows },
    pub ghost row_in: { row < rows },
    pub ghost columns_in: { first_column + rows ≤ width },
    pub ghost column_in: { column < width },
    pub ghost in_width: { InWidth denominator },
    pub ghost positive: { pos 0 <ℤ denominator },
}

impl Pivot {
    // The numerator of row s and column c, before the division. The words come beside the pivot here and below, since `exchange` writes
    // them: a type that lends them to be read would be made only to ask for the divisor.
    fn numerator(self, words: &[i64], s: usize, c: usize) -> i64
        requires places { (s < self.rows) × (c < self.width) }
        requires rows { self.rows * self.width ≤ length words.now }
        requires widths { AllInWidth words.now }
        ensures { result ≡ numerator_of self.denominator self.width self.row self.column words.now s c }
    {
        let pivot = self.row * self.width;
        let other = s * self.width;
        let under = words[pivot + c];
        if s == self.row {
            return product(self.denominator, under);
        }
        difference(
            words[pivot + self.column],
            words[other + c],
            words[other + self.column],
            under,
        )
    }

    // The numerators of the rows and of as many columns from the first on, row by row.
    fn numerators(self, words: &[i64]) -> [i64; MOST_NUMERATORS]
        requires rows { self.rows * self.width ≤ length words.now }
        requires widths { AllInWidth words.now }
        ensures { (k : ℕ) → k < self.rows * self.rows → entries result k ≡ numerator_of self.denominator self.width self.row self.column words.now (k / self.rows) (self.first_column + k % self.rows) }
    {
        let mut numbers = [0; MOST_NUMERATORS];
        // The index gives the row and the column, so that a loop over the numbers would be no plainer.
        for k in 0..self.rows * self.rows {
            numbers[k] = self.numerator(words, k / self.rows, self.first_column + k % self.rows);
        }
        numbers
    }

    // The greatest common divisor of the new denominator and of the numerators of the basis rows, before the division.
    pub fn divisor(self, words: &[i64]) -> i64
        requires rows { self.rows * self.width ≤ length words.now }
        requires widths { AllInWidth words.now }
        requires positive { pos 0 <ℤ cell self.width words.now self.row self.column }
        ensures { PivotDivisor self.denominator self.width self.rows self.first_column self.row self.column words.now result }
    {
        let numbers = self.numerators(words);
        let first = product(self.denominator, words[self.row * self.width + self.column]);
        divisor(first, &numbers[0..self.rows * self.rows])
    }
}
