// What a written-out plant answers.
ghost use Rattle.std.specs.Prelude.{◌≡◌, ◌+◌, ◌<◌};
ghost use Rattle.words.specs.Layout.{width as width_of, limit_place};
ghost use Rattle.plant.specs.Written.{number_at, said};
ghost use Rattle.plant.specs.WrittenBounds.{written_kind, written_bounded};

use crate::interface::Plant;
use crate::place::from_zero;
use crate::written::Written;
use words::bounds::is_value;
use words::payload::payload;

impl Written<'_> {
    // The number at a place of the words, or 0.
    fn number(&self, place: usize) -> i32
        ensures { result ≡ number_at self.now.words.now place }
    {
        let Some(&word) = self.words.get(place) else {
            return 0;
        };
        let number = payload(word);
        if is_value(number) { number } else { 0 }
    }

    // The number in a column of a limit, both from 0.
    fn cell(&self, limit: usize, column: usize) -> i32
        requires limit { limit < self.now.counts.shape.limits }
        requires column { column < width_of self.now.counts.shape }
        ensures { result ≡ number_at self.now.words.now (limit_place self.now.counts.shape limit + column) }
    {
        let shape = self.counts.shape();
        let width = shape.commands + (1 + shape.readings);
        self.number(1 + shape.commands + limit * width + column)
    }
}

impl Plant for Written<'_> {
    const KIND: u16 = 1;

    ghost kind = { 1 };

    ghost kind_fits = { written_kind };

    ghost meaning = { λ w. said w.words.now w.counts.shape };

    ghost bounded = { written_bounded };

    fn kind_number() -> u16
        ensures { result ≡ 1 }
    {
        Self::KIND
    }

    fn commands(&self) -> usize {
        self.counts.shape().commands
    }

    fn limits(&self) -> usize {
        self.counts.shape().limits
    }

    fn readings(&self) -> usize {
        self.counts.shape().readings
    }

    fn gain(&self, i: usize) -> Option<i32> {
        let command = from_zero(i, self.counts.shape().commands)?;
        Some(self.number(1 + command))
    }

    fn coefficient(&self, j: usize, i: usize) -> Option<i32> {
        let shape = self.counts.shape();
        let limit = from_zero(j, shape.limits)?;
        let command = from_zero(i, shape.commands)?;
        Some(self.cell(limit, command))
    }

    fn constant(&self, j: usize) -> Option<i32> {
        let shape = self.counts.shape();
        let limit = from_zero(j, shape.limits)?;
        Some(self.cell(limit, shape.commands))
    }

    fn slope(&self, j: usize, k: usize) -> Option<i32> {
        let shape = self.counts.shape();
        let limit = from_zero(j, shape.limits)?;
        let reading = from_zero(k, shape.readings)?;
        Some(self.cell(limit, shape.commands + 1 + reading))
    }
}
