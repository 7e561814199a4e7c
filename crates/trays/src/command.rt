// The command of a corner.
ghost use Rattle.std.specs.Prelude.{◌≡◌, ℕ, ◌+◌, ◌<◌, map, ℤ, pos, neg_ℤ, ◌<ℤ◌, int_div};
ghost use Rattle.exact.specs.Vectors.{entries};
ghost use Rattle.tableau_words.specs.Layout.{row_width};
ghost use Rattle.tableau_words.specs.Readings.{column_at};
ghost use Rattle.trays.specs.Trays.{fraction_list};
ghost use Rattle.trays.specs.Commands.{CommandAnswer};

use crate::tray::TRAY;
use exact::divisors::divisor;
use rows::numbers::divided;
use tableau_words::reading::TableauAt;

// A number of the law or its gain at the readings, which the rows of the constants and the readings hold negated.
fn law_at(tableau: TableauAt<'_>, column: usize) -> i64
    requires { column < row_width tableau.reading.counts.shape }
    ensures { result ≡ neg_ℤ (column_at tableau.entry.reading.counts.shape tableau.entry.reading.numbers.now tableau.entry.words.now column) }
{
    -tableau.column_sum(column)
}

// The numerators, their denominator and the gain before they are divided, and zeros.
fn undivided(tableau: TableauAt<'_>) -> [i64; TRAY]
    ensures { let law : ℕ → ℤ = λ column. neg_ℤ (column_at tableau.entry.reading.counts.shape tableau.entry.reading.numbers.now tableau.entry.words.now column) in result ≡ fraction_list tableau.entry.reading.counts.shape.commands (λ i. law (1 + i)) (entries tableau.entry.words.now 0) (law 0) }
{
    let commands = tableau.reading.counts.shape().commands;
    let mut numbers = [0; TRAY];
    for (i, number) in numbers[..commands].iter_mut().enumerate() {
        *number = law_at(tableau, 1 + i);
    }
    numbers[commands] = tableau.words[0];
    numbers[commands + 1] = law_at(tableau, 0);
    numbers
}

// Divides every number.
fn divide(numbers: &mut [i64], by: i64)
    requires { pos 0 <ℤ by }
    ensures { numbers.new ≡ map (λ z. int_div z by) numbers.old }
{
    for number in numbers.iter_mut() {
        *number = divided(*number, by);
    }
}

// The command of a corner at the readings, in lowest terms: its numerators, their denominator, its gain over that, and zeros.
// The divisor divides every numerator, and so the gain.
pub fn command(tableau: TableauAt<'_>) -> [i64; TRAY]
    requires { pos 0 <ℤ entries tableau.words.now 0 }
    ensures { CommandAnswer tableau.entry.reading.counts.shape tableau.entry.reading.numbers.now tableau.entry.words.now result }
{
    let commands = tableau.reading.counts.shape().commands;
    let mut numbers = undivided(tableau);
    let common = divisor(tableau.words[0], &numbers[..commands]);
    divide(&mut numbers[..commands + 2], common);
    numbers
}
