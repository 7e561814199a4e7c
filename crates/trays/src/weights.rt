// The weights that show that no command keeps every limit.
ghost use Rattle.std.specs.Prelude.{◌≡◌, ◌<◌, neg_ℤ};
ghost use Rattle.tableau_words.specs.Layout.{limit_column, number_at};
ghost use Rattle.trays.specs.Weights.{RowsKnown, WeightsAnswer};

use crate::tray::TRAY;
use tableau_words::view::Tableau;

// The weight of the limit of a row.
fn row_weight(tableau: Tableau<'_>, row: usize, limit: usize) -> i64
    requires row { row < tableau.counts.shape.commands }
    requires limit { limit < tableau.counts.shape.limits }
    ensures { result ≡ neg_ℤ (number_at tableau.entry.counts.shape tableau.entry.words.now row (limit_column tableau.entry.counts.shape limit)) }
{
    let column = 1 + tableau.counts.shape().commands + limit;
    -tableau.number(row, column)
}

// The weights of limit `limit`, from 0, which is not in the basis.
pub fn weights(tableau: Tableau<'_>, limit: usize) -> [i64; TRAY]
    requires limit { limit < tableau.counts.shape.limits }
    requires known { RowsKnown tableau.counts.shape tableau.words.now }
    ensures { WeightsAnswer tableau.entry.counts.shape limit tableau.entry.words.now result }
{
    let mut numbers = [0; TRAY];
    // No slice has a row: its limit and its number stand apart in the words.
    for row in 0..tableau.counts.shape().commands {
        numbers[tableau.row_limit(row)] = row_weight(tableau, row, limit);
    }
    numbers[limit] = tableau.words[0];
    numbers
}
