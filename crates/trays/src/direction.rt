// The direction of the search.
ghost use Rattle.trays.specs.Directions.{DirectionAnswer};

use crate::tray::TRAY;
use tableau_words::view::Tableau;

// The direction Y at a corner of the search: the sum of the rows of artificial limits, and zeros.
pub fn direction(tableau: Tableau<'_>) -> [i64; TRAY]
    ensures { DirectionAnswer tableau.entry.counts.shape tableau.entry.words.now result }
{
    let mut numbers = [0; TRAY];
    let commands = tableau.counts.shape().commands;
    for (i, number) in numbers[..commands].iter_mut().enumerate() {
        *number = tableau.artificial_sum(1 + i);
    }
    numbers
}
