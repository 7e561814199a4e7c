// Which limit leaves.
ghost use Rattle.std.specs.Prelude.{◌≡◌, ℕ, ◌<◌, length, MatchBool};
ghost use Rattle.exact.specs.Bounds.{AllInWidth};
ghost use Rattle.exact.specs.Lists.{Before};
ghost use Rattle.exact.specs.Vectors.{entries};
ghost use Rattle.tableau_words.specs.Layout.{first_row, row_width, number_at};
ghost use Rattle.tableau_words.specs.Leaving.{LeavingAnswer};

use crate::view::Tableau;
use exact::order::compare;
use words::counts::Shape;

impl<'a> Tableau<'a> {
    // The list that a row begins with: its gain and its number for each command.
    fn list(&self, row: usize) -> &'a [i64]
        requires { row < self.now.counts.shape.commands }
        ensures long { length result.now ≡ first_row self.now.counts.shape }
        ensures numbers { (i : ℕ) → i < first_row self.now.counts.shape → entries result.now i ≡ number_at self.now.counts.shape self.now.words.now row i }
        ensures wide { AllInWidth result.now }
    {
        let Shape {
            commands,
            limits,
            ..
        } = self.counts.shape();
        let list = 1 + commands;
        let start = list + row * (list + limits);
        &self.words[start..start + list]
    }

    // Whether the list of row `first`, over its number in `column`, comes before that of row `second`.
    fn comes_before(&self, column: usize, first: usize, second: usize) -> bool
        requires rows { (first < self.now.counts.shape.commands) × (second < self.now.counts.shape.commands) }
        requires column { column < row_width self.now.counts.shape }
        ensures { let number = number_at self.now.counts.shape self.now.words.now in let before = Before (first_row self.now.counts.shape) (number first) (number first column) (number second) (number second column) in MatchBool result before (¬ before) }
    {
        compare(
            self.list(first),
            self.number(first, column),
            self.list(second),
            self.number(second, column),
        )
        .is_lt()
    }

    // The row whose limit leaves when limit `limit` enters, both from 0; none when no row can.
    pub fn leaving(&self, limit: usize) -> Option<usize>
        requires { limit < self.now.counts.shape.limits }
        ensures { LeavingAnswer self.now.counts.shape limit self.now.words.now result }
    {
        let commands = self.counts.shape().commands;
        let column = 1 + commands + limit;
        let mut leaves = None;
        for row in 0..commands {
            if self.number(row, column) > 0 {
                // By a match in a loop: closures for `is_none_or` and `min_by` would need clauses of their own, longer than the match.
                match leaves {
                    Some(least) if !self.comes_before(column, row, least) => {}
                    _ => leaves = Some(row),
                }
            }
        }
        leaves
    }
}
