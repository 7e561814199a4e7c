// From corner to corner by an entering limit.
ghost use Rattle.std.specs.Prelude.{◌<◌};
ghost use Rattle.corner_words.specs.Corners.{Holding};
ghost use Rattle.corner_words.specs.Enters.{EnterAnswer};

use rows::OutOfWidth;
use tableau_words::exchange::exchange;
use tableau_words::view::Tableau;
use words::counts::Counts;

// Why a limit did not enter.
#[derive(Clone, Copy, PartialEq, Eq, Debug)]
pub enum NotEntered {
    // No limit can leave.
    NoRow,
    // The tableau after it has entered is out of width.
    OutOfWidth,
}

// Limit `limit`, from 0, enters, and the limit leaves whose ratio is the least, which is answered, from 0 too. Out of width, nothing is said of the words: so that they hold a corner is a clause here, and no type of the words can say it.
pub fn enter(words: &mut [i64], counts: Counts, limit: usize) -> Result<usize, NotEntered>
    requires place { limit < counts.shape.limits }
    requires holding { Holding counts.shape words.old }
    ensures { EnterAnswer counts.shape limit words.old words.new result }
{
    let tableau = Tableau { counts, words };
    let row = tableau.leaving(limit).ok_or(NotEntered::NoRow)?;
    let left = tableau.row_limit(row);
    match exchange(words, counts, row, limit) {
        Ok(()) => Ok(left),
        Err(OutOfWidth) => Err(NotEntered::OutOfWidth),
    }
}
