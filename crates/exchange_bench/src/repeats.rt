// The loop that is measured.
ghost use Rattle.std.specs.Prelude.{◌≡◌, ◌<◌, length, pos, ◌<ℤ◌};
ghost use Rattle.exact.specs.Bounds.{AllInWidth};
ghost use Rattle.exact.specs.Vectors.{entries};
ghost use Rattle.tableau_words.specs.Layout.{number_at, limit_column};

use crate::corners::SIZE;
use rows::OutOfWidth;
use tableau_words::exchange::exchange;
use words::counts::{Counts, Shape};

const SHAPE: Shape = Shape {
    commands: 4,
    limits: 16,
    readings: 3,
};

// Makes the same exchange `count` times, and sums one word of each result, another each time.
pub fn repeat(
    corner: &[i64; SIZE],
    row: usize,
    limit: usize,
    count: usize,
) -> Result<i64, OutOfWidth>
    requires places { (row < 4) × (limit < 16) }
    requires widths { AllInWidth corner.now }
    requires positive { (pos 0 <ℤ entries corner.now 0) × (pos 0 <ℤ number_at (record { commands = 4; limits = 16; readings = 3 }) corner.now row (limit_column (record { commands = 4; limits = 16; readings = 3 }) limit)) }
{
    let counts = Counts::new(SHAPE).unwrap();
    let mut sum = 0i64;
    // The count also says which word is summed.
    for k in 0..count {
        let mut words = *corner;
        exchange(&mut words, counts, row, limit)?;
        sum = sum.wrapping_add(words[k % SIZE]);
    }
    Ok(sum)
}
