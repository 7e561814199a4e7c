// Which limits are willing to enter.
ghost use Rattle.std.specs.Prelude.{◌<◌};
ghost use Rattle.tableau_words.specs.Entering.{BelowAnswer, WillingAnswer, EnteringAnswer};

use crate::reading::TableauAt;
use crate::view::Tableau;
use std::cmp::Ordering;

impl Tableau<'_> {
    // The number in the column of `limit`, other than 0, of the least limit below it that has one.
    pub fn first_below(&self, limit: usize) -> Option<i64>
        requires { limit < self.now.counts.shape.limits }
        ensures { BelowAnswer self.now.counts.shape limit self.now.words.now result }
    {
        let commands = self.counts.shape().commands;
        let column = 1 + commands + limit;
        let mut first = None;
        for row in 0..commands {
            let below = self.words[1 + row];
            if below < limit as i64 && self.number(row, column) != 0 {
                // By a match in a loop: closures for `is_none_or` and `min_by` would need clauses of their own, longer than the match.
                match first {
                    Some(least) if self.words[1 + least] <= below => {}
                    _ => first = Some(row),
                }
            }
        }
        Some(self.number(first?, column))
    }
}

impl TableauAt<'_> {
    // Whether limit `limit`, from 0, is willing to enter at the readings.
    pub fn willing(&self, limit: usize) -> bool
        requires { limit < self.now.reading.counts.shape.limits }
        ensures { WillingAnswer self.now.reading.counts.shape self.now.reading.numbers.now limit self.now.words.now result }
    {
        match self.slack(limit).cmp(&0) {
            Ordering::Less => true,
            Ordering::Equal => self
                .tableau()
                .first_below(limit)
                .is_some_and(|number| number > 0),
            Ordering::Greater => false,
        }
    }

    // The least willing limit, from 0; none when none is willing.
    pub fn least_willing(&self) -> Option<usize>
        ensures { EnteringAnswer self.now.reading.counts.shape self.now.reading.numbers.now self.now.words.now result }
    {
        (0..self.reading.counts.shape().limits).find(
            |limit: &usize| -> bool
                requires { limit.now < self.now.reading.counts.shape.limits }
                ensures { WillingAnswer self.entry.now.reading.counts.shape self.entry.now.reading.numbers.now limit.entry.now self.entry.now.words.now result }
            { self.willing(*limit) },
        )
    }
}
