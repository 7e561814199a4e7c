// Sums over the rows of artificial limits, those whose number is past the plant's limits.
ghost use Rattle.std.specs.Prelude.{◌≡◌, ◌<◌};
ghost use Rattle.exact.specs.Bounds.{InWidth};
ghost use Rattle.tableau_words.specs.Layout.{row_width};
ghost use Rattle.tableau_words.specs.Artificial.{number_if_artificial, ArtificialSum};

use crate::view::Tableau;

impl Tableau<'_> {
    // The number of a row in a column if its limit is artificial, else 0.
    fn artificial_number(&self, row: usize, column: usize) -> i64
        requires row { row < self.now.counts.shape.commands }
        requires column { column < row_width self.now.counts.shape }
        ensures value { result ≡ number_if_artificial self.now.counts.shape self.now.words.now column row }
        ensures width { InWidth result }
    {
        if self.words[1 + row] < self.counts.shape().limits as i64 {
            0
        } else {
            self.number(row, column)
        }
    }

    // The sum of the numbers in a column over the rows of artificial limits.
    pub fn artificial_sum(&self, column: usize) -> i64
        requires { column < row_width self.now.counts.shape }
        ensures { ArtificialSum self.now.counts.shape column self.now.words.now result }
    {
        let mut sum = 0;
        // A loop and no chain: a chain's sum of signed numbers has no bound that a proof could use.
        for row in 0..self.counts.shape().commands {
            sum += self.artificial_number(row, column);
        }
        sum
    }
}
