// One exchange, in the words of a tableau.
ghost use Rattle.std.specs.Prelude.{◌≡◌, ◌<◌, length, pos, ◌<ℤ◌};
ghost use Rattle.exact.specs.Bounds.{AllInWidth};
ghost use Rattle.exact.specs.Vectors.{entries};
ghost use Rattle.tableau_words.specs.Layout.{size, number_at, limit_column};
ghost use Rattle.tableau_words.specs.Exchanges.{ExchangeAnswer};

use rows::OutOfWidth;
use rows::pivot::Pivot;
use words::counts::{Counts, Shape};

// Limit `limit` takes the place of the limit of a row, both from 0. Out of width, nothing is said of the rows.
pub fn exchange(
    words: &mut [i64],
    counts: Counts,
    row: usize,
    limit: usize,
) -> Result<(), OutOfWidth>
    requires places { (row < counts.shape.commands) × (limit < counts.shape.limits) }
    requires long { length words.old ≡ size counts.shape }
    requires widths { AllInWidth words.old }
    requires positive { (pos 0 <ℤ entries words.old 0) × (pos 0 <ℤ number_at counts.shape words.old row (limit_column counts.shape limit)) }
    ensures { ExchangeAnswer counts.shape row limit words.old words.new result }
{
    let Shape {
        commands,
        limits,
        readings,
    } = counts.shape();
    let pivot = Pivot {
        width: 1 + commands + limits,
        rows: commands,
        first_column: 1,
        row,
        column: 1 + commands + limit,
        denominator: words[0],
    };
    let count = commands + (1 + readings);
    let next = pivot.exchange(&mut words[1 + commands..], count)?;
    words[0] = next;
    words[1 + row] = limit as i64;
    Ok(())
}
