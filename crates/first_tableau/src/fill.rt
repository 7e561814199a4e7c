// The words of the tableau: its denominator, its limits and its rows.
ghost use Rattle.std.specs.Prelude.{◌≡◌, ◌+◌, ◌*◌, ◌^◌, ◌<◌, length, pos};
ghost use Rattle.plant.specs.Meaning.{shape_of};
ghost use Rattle.tableau_words.specs.Layout.{row_width, row_count, size};
ghost use Rattle.plant_table.specs.Places.{Holds, RowsHold};
ghost use Rattle.plant_table.specs.Tabled.{meaning_of};
ghost use Rattle.first_tableau.specs.First.{HoldsFirst, first_number};

use crate::numbers::number;
use plant_table::table::Table;

fn fill_row(table: &Table, row: usize, numbers: &mut [i64])
    requires row { row < row_count (shape_of (meaning_of table.now)) }
    requires long { length numbers.old ≡ row_width (shape_of (meaning_of table.now)) }
    ensures { Holds (row_width (shape_of (meaning_of table.now))) (first_number (meaning_of table.now) row) numbers.new }
{
    for (column, place) in numbers.iter_mut().enumerate() {
        *place = number(table, row, column);
    }
}

fn fill_rows(table: &Table, rows: &mut [i64])
    requires { length rows.old ≡ row_count (shape_of (meaning_of table.now)) * row_width (shape_of (meaning_of table.now)) }
    ensures { RowsHold (row_width (shape_of (meaning_of table.now))) (row_count (shape_of (meaning_of table.now))) (row_width (shape_of (meaning_of table.now))) (first_number (meaning_of table.now)) rows.new }
{
    let shape = table.shape();
    let width = 1 + shape.commands + shape.limits;
    // By the row's number: of a slice that is lent out in chunks a proof knows no number afterwards.
    for row in 0..shape.commands + (1 + shape.readings) {
        let start = row * width;
        fill_row(table, row, &mut rows[start..start + width]);
    }
}

// The artificial limits stand after all limits of the plant, one in each row.
fn fill_limits(first: usize, limits: &mut [i64])
    requires { first + length limits.old < 2 ^ 63 }
    ensures { Holds (length limits.old) (λ r. pos (first + r)) limits.new }
{
    for (row, limit) in limits.iter_mut().enumerate() {
        // The cast keeps the number, as is proved; `try_from` would add a refusal that cannot come.
        *limit = (first + row) as i64;
    }
}

// Writes the tableau of the table's plant at the basis of all artificial limits.
pub fn fill(table: &Table, words: &mut [i64])
    requires { length words.old ≡ size (shape_of (meaning_of table.now)) }
    ensures { HoldsFirst (meaning_of table.now) words.new }
{
    let shape = table.shape();
    words[0] = 1;
    fill_limits(shape.limits, &mut words[1..1 + shape.commands]);
    fill_rows(table, &mut words[1 + shape.commands..]);
}
