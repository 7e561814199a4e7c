// The basis of a corner, from its words.
ghost use Rattle.corner_words.specs.Corners.{Holding};
ghost use Rattle.corner_words.specs.Reads.{OwnLimits, MaskAnswer};

use tableau_words::view::Tableau;

// The mask of the basis, with a bit for the limit of each row, none of which is artificial.
pub fn mask(tableau: Tableau<'_>) -> u32
    requires holding { Holding tableau.counts.shape tableau.words.now }
    requires own { OwnLimits tableau.counts.shape tableau.words.now }
    ensures { MaskAnswer tableau.entry.counts.shape tableau.entry.words.now result }
{
    let mut bits = 0;
    // A loop: under `sum` a closure would need clauses of its own, longer than the loop.
    for row in 0..tableau.counts.shape().commands {
        bits += 1 << tableau.row_limit(row);
    }
    bits
}
