// What a ranged plant answers.
ghost use Rattle.std.specs.Prelude.{◌≡◌};
ghost use Rattle.plant.specs.Ranged.{ranged_by, RowAt};
ghost use Rattle.plant.specs.RangedBounds.{ranged_kind, ranged_bounded};

use crate::interface::Plant;
use crate::place::from_zero;
use crate::range_table::RangeTable;
use crate::ranged::Ranged;
use crate::row::Row;

// Its own constant: in an impl with a type parameter a proof knows nothing of `Self::KIND`.
const RANGED_KIND: u16 = 7;

impl RangeTable {
    // Which limit stands at a place from 1.
    fn row(&self, j: usize) -> Option<Row>
        ensures { RowAt self.now.counts.shape j result }
    {
        let shape = self.counts.shape();
        let place = from_zero(j, shape.limits + 2 * shape.commands)?;
        if place < shape.limits {
            return Some(Row::Kept);
        }
        let added = place - shape.limits;
        if added < shape.commands {
            Some(Row::AtMost(added))
        } else {
            Some(Row::AtLeast(added - shape.commands))
        }
    }
}

impl<P: Plant> Plant for Ranged<P> {
    const KIND: u16 = RANGED_KIND;

    ghost kind = { 7 };

    ghost kind_fits = { ranged_kind };

    ghost meaning = { λ r. ranged_by r.table (P.Plant.meaning r.below) };

    ghost bounded = { λ r. ranged_bounded (P.Plant.meaning r.below) (P.bounded r.below) r.table };

    fn kind_number() -> u16 {
        RANGED_KIND
    }

    fn commands(&self) -> usize {
        self.table.counts.shape().commands
    }

    fn limits(&self) -> usize {
        let shape = self.table.counts.shape();
        shape.limits + 2 * shape.commands
    }

    fn readings(&self) -> usize {
        self.table.counts.shape().readings
    }

    fn gain(&self, i: usize) -> Option<i32> {
        from_zero(i, self.table.counts.shape().commands)?;
        Some(self.below.gain(i).unwrap_or(0))
    }

    fn coefficient(&self, j: usize, i: usize) -> Option<i32> {
        let command = from_zero(i, self.table.counts.shape().commands)?;
        match self.table.row(j)? {
            Row::Kept => Some(self.below.coefficient(j, i).unwrap_or(0)),
            Row::AtMost(held) => Some(i32::from(command == held)),
            Row::AtLeast(held) => Some(-i32::from(command == held)),
        }
    }

    fn constant(&self, j: usize) -> Option<i32> {
        match self.table.row(j)? {
            Row::Kept => Some(self.below.constant(j).unwrap_or(0)),
            Row::AtMost(held) => Some(self.table.highs[held]),
            Row::AtLeast(held) => Some(-self.table.lows[held]),
        }
    }

    fn slope(&self, j: usize, k: usize) -> Option<i32> {
        from_zero(k, self.table.counts.shape().readings)?;
        match self.table.row(j)? {
            Row::Kept => Some(self.below.slope(j, k).unwrap_or(0)),
            Row::AtMost(_) | Row::AtLeast(_) => Some(0),
        }
    }
}
