// The numbers of the tableau of all artificial limits.
ghost use Rattle.std.specs.Prelude.{◌≡◌, ◌<◌, ◌≤◌, ◌*ℤ◌};
ghost use Rattle.words.specs.Bounds.{Value};
ghost use Rattle.plant.specs.Meaning.{shape_of};
ghost use Rattle.tableau.specs.Artificial.{sign_of};
ghost use Rattle.tableau.specs.Plants.{commands};
ghost use Rattle.tableau_words.specs.Layout.{row_width, row_count};
ghost use Rattle.plant_table.specs.Tabled.{meaning_of};
ghost use Rattle.first_tableau.specs.First.{first_basis_row, first_reading_row, first_number};

use plant_table::table::Table;

// The number, with its sign turned where the gain is negative.
fn turned(number: i64, gain: i64) -> i64
    requires { Value number }
    ensures { result ≡ number *ℤ sign_of gain }
{
    if gain < 0 { -number } else { number }
}

// The number of an artificial limit's row in a column.
fn basis_number(table: &Table, row: usize, column: usize) -> i64
    requires row { row < commands (meaning_of table.now) }
    requires column { column < row_width (shape_of (meaning_of table.now)) }
    ensures { result ≡ first_basis_row (meaning_of table.now) row column }
{
    let list = 1 + table.shape().commands;
    let gain = table.gain(row);
    if column == 0 {
        turned(gain, gain)
    } else if column == 1 + row {
        turned(1, gain)
    } else if column < list {
        0
    } else {
        turned(table.coefficient(column - list, row), gain)
    }
}

// The number of the constants' row, for k = 0, or of the row of reading k, in a column.
fn reading_number(table: &Table, k: usize, column: usize) -> i64
    requires reading { k ≤ (meaning_of table.now).readings }
    requires column { column < row_width (shape_of (meaning_of table.now)) }
    ensures { result ≡ first_reading_row (meaning_of table.now) k column }
{
    let list = 1 + table.shape().commands;
    if column < list {
        0
    } else {
        table.rate(k, column - list)
    }
}

// The number of a row in a column, both from 0.
pub(crate) fn number(table: &Table, row: usize, column: usize) -> i64
    requires row { row < row_count (shape_of (meaning_of table.now)) }
    requires column { column < row_width (shape_of (meaning_of table.now)) }
    ensures { result ≡ first_number (meaning_of table.now) row column }
{
    let commands = table.shape().commands;
    if row < commands {
        basis_number(table, row, column)
    } else {
        reading_number(table, row - commands, column)
    }
}
