// What lies across a pair: a corner, and a limit outside its basis. That the words hold a corner is a clause and not a fact of their
// type: the words change under the exchanges, and one that is out of width leaves no corner in them.
ghost use Rattle.std.specs.Prelude.{◌≡◌, ◌+◌, ◌^◌, ◌<◌, ◌≤◌, take};
ghost use Rattle.words.specs.Bounds.{most_limits};
ghost use Rattle.tableau_words.specs.Layout.{size};
ghost use Rattle.corner_runs.specs.Answers.{SomeCorner};
ghost use Rattle.working_tableau.specs.Crossings.{LeftAnswer, SomeRow, CrossAnswer};

use corner_words::enter::{NotEntered, enter};
use rows::OutOfWidth;
use rows::guard::Guard;
use tableau_words::size::{MOST_WORDS, tableau_size};
use tableau_words::view::Tableau;
use words::counts::Counts;

// The limit that leaves when limit `limit` enters at the corner in the words, both from 0; none when no row can.
pub fn left_by(tableau: Tableau<'_>, limit: usize) -> Option<usize>
    requires place { limit < tableau.counts.shape.limits }
    requires corner { SomeCorner tableau.counts.shape tableau.words.now }
    ensures { LeftAnswer tableau.entry.counts.shape limit tableau.entry.words.now result }
{
    let row = tableau.leaving(limit)?;
    Some(tableau.row_limit(row))
}

// The mask with the bit of limit `entering` in place of that of limit `left`, both from 0.
pub fn mask_across(mask: u32, entering: usize, left: usize) -> u32
    requires places { (entering < most_limits) × (left < most_limits) }
    requires bits { (mask < 2 ^ most_limits) × (2 ^ left ≤ mask) }
    ensures { result + 2 ^ left ≡ mask + 2 ^ entering }
{
    mask - (1 << left) + (1 << entering)
}

// Lets limit `limit` enter at the corner in the words, and answers a copy of them. What the words are afterwards is not said.
fn enter_on(
    words: &mut [i64; MOST_WORDS],
    counts: Counts,
    limit: usize,
) -> Result<[i64; MOST_WORDS], OutOfWidth>
    requires place { limit < counts.shape.limits }
    requires corner { SomeCorner counts.shape (take (size counts.shape) words.old) }
    requires row { SomeRow counts.shape limit (take (size counts.shape) words.old) }
    ensures { CrossAnswer counts.shape limit (take (size counts.shape) words.old) result }
{
    let size = tableau_size(counts);
    match enter(&mut words[0..size], counts, limit) {
        Ok(_left) => Ok(*words),
        Err(NotEntered::NoRow) => unreachable!(),
        Err(NotEntered::OutOfWidth) => Err(OutOfWidth),
    }
}

// The words of the corner across from that in `from`. They are made in the working words, which are put back on every way out.
pub fn cross(
    words: &mut [i64; MOST_WORDS],
    from: &[i64; MOST_WORDS],
    counts: Counts,
    limit: usize,
) -> Result<[i64; MOST_WORDS], OutOfWidth>
    requires place { limit < counts.shape.limits }
    requires corner { SomeCorner counts.shape (take (size counts.shape) from.now) }
    requires row { SomeRow counts.shape limit (take (size counts.shape) from.now) }
    ensures same { words.new ≡ words.old }
    ensures answer { CrossAnswer counts.shape limit (take (size counts.shape) from.now) result }
{
    let guard = Guard::new(words);
    let start = *from;
    *guard.words = start;
    enter_on(guard.words, counts, limit)
}
