// The rows of the constants and the readings, at readings.
ghost use Rattle.std.specs.Prelude.{◌≡◌, ◌+◌, ◌*◌, ◌<◌, ◌≤◌, unsigned_abs};
ghost use Rattle.exact.specs.Bounds.{width};
ghost use Rattle.tableau_words.specs.Layout.{row_width};
ghost use Rattle.tableau_words.specs.Readings.{column_at};

use crate::reading::TableauAt;
use exact::bounds::product;

impl TableauAt<'_> {
    // The sum of a column over the row of the constants and the row of each reading times the reading.
    pub fn column_sum(&self, column: usize) -> i64
        requires { column < row_width self.now.reading.counts.shape }
        ensures value { result ≡ column_at self.now.reading.counts.shape self.now.reading.numbers.now self.now.words.now column }
        ensures small { unsigned_abs result ≤ (1 + self.now.reading.counts.shape.readings) * (width * width) }
    {
        let tableau = self.tableau();
        let constants = self.reading.counts.shape().commands;
        let mut sum = tableau.number(constants, column);
        // A loop and no chain: a chain's sum of signed numbers has no bound that a proof could use.
        for (k, reading) in self.reading.numbers.iter().enumerate() {
            sum += product(*reading, tableau.number(constants + (1 + k), column));
        }
        sum
    }
}
