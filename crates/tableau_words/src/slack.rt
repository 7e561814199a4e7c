// Slacks at readings.
ghost use Rattle.std.specs.Prelude.{◌<◌};
ghost use Rattle.tableau_words.specs.Slacks.{SlackAnswer};

use crate::reading::TableauAt;

impl TableauAt<'_> {
    // The slack of limit `limit`, from 0, at the readings.
    pub fn slack(&self, limit: usize) -> i64
        requires { limit < self.now.reading.counts.shape.limits }
        ensures { SlackAnswer self.now.reading.counts.shape self.now.reading.numbers.now limit self.now.words.now result }
    {
        self.column_sum(1 + self.reading.counts.shape().commands + limit)
    }
}
