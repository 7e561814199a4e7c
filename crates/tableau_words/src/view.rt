// A tableau in words: its counts and its words together.
ghost use Rattle.std.specs.Prelude.{◌≡◌, ◌+◌, ◌<◌, length, pos, ◌≤ℤ◌};
ghost use Rattle.exact.specs.Bounds.{InWidth, AllInWidth};
ghost use Rattle.exact.specs.Vectors.{entries};
ghost use Rattle.tableau_words.specs.Layout.{size, row_count, row_width, number_at};

use words::counts::{Counts, Shape};

// As many words as the counts need, all in width.
#[derive(Clone, Copy)]
pub struct Tableau<'a> {
    pub counts: Counts,
    pub words: &'a [i64],
    pub ghost long: { length words.now ≡ size counts.shape },
    pub ghost wide: { AllInWidth words.now },
}

impl<'a> Tableau<'a> {
    // The number of a row in a column, both from 0.
    pub fn number(&self, row: usize, column: usize) -> i64
        requires row { row < row_count self.now.counts.shape }
        requires column { column < row_width self.now.counts.shape }
        ensures value { result ≡ number_at self.now.counts.shape self.now.words.now row column }
        ensures width { InWidth result }
    {
        let Shape {
            commands,
            limits,
            ..
        } = self.counts.shape();
        let list = 1 + commands;
        self.words[list + row * (list + limits) + column]
    }

    // The limit of a row, both from 0.
    pub fn row_limit(&self, row: usize) -> usize
        requires row { row < self.now.counts.shape.commands }
        requires limit { pos 0 ≤ℤ entries self.now.words.now (1 + row) }
        ensures { entries self.now.words.now (1 + row) ≡ pos result }
    {
        self.words[1 + row] as usize
    }
}
