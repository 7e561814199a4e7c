// A solve on the working tableau, which is put back on every way out. That the words hold a corner is a clause and not a fact of their
// type: the words change under the exchanges, and one that is out of width leaves no corner in them. Tray and trail are the caller's own,
// lent for one call, and so their facts are clauses too.
ghost use Rattle.std.specs.Prelude.{◌≡◌, ◌≤◌, [], length, take};
ghost use Rattle.tableau_words.specs.Layout.{size};
ghost use Rattle.bounded_list.specs.Contents.{contents, room as room_of};
ghost use Rattle.corner_runs.specs.Answers.{SomeCorner};
ghost use Rattle.trays.specs.Trays.{tray_size};
ghost use Rattle.working_tableau.specs.Solves.{KeptCorner, Conclusion, SolveAnswer};

use bounded_list::List;
use corner_runs::exchanges::Exchange;
use corner_runs::run::{Ran, Unsettled, run};
use corner_words::read::mask;
use map_steps::reply::Reached;
use rows::guard::Guard;
use tableau_words::reading::{Reading, TableauAt};
use tableau_words::size::{MOST_WORDS, tableau_size};
use tableau_words::view::Tableau;
use trays::command::command;
use trays::tray::lay;
use trays::weights::weights;
use words::refusal::{Refusal, Shown};

// Lays on the tray what the end of a run came to: the command of the corner in the words, or the weights that show that there is none.
// Words and no tableau: after a run that ended out of width they need be none.
fn conclude(
    words: &[i64],
    reading: Reading<'_>,
    ran: Ran,
    tray: &mut [i64],
) -> Result<Reached, Refusal>
    requires corner { KeptCorner reading.counts.shape words.now ran.end }
    requires tray { tray_size ≤ length tray.old }
    ensures { Conclusion reading.entry.counts.shape reading.entry.numbers.now words.now tray.old tray.new ran result }
{
    match ran.end {
        Ok(()) => {
            let at = TableauAt { reading, words };
            lay(tray, &command(at));
            Ok(Reached {
                mask: mask(at.tableau()),
                exchanges: ran.exchanges,
            })
        }
        Err(Unsettled::NoRow(limit)) => {
            lay(
                tray,
                &weights(
                    Tableau {
                        counts: reading.counts,
                        words,
                    },
                    limit,
                ),
            );
            Err(Refusal::NoCommand(Shown::ByLimit(limit + 1)))
        }
        Err(Unsettled::OutOfWidth(limit)) => Err(Refusal::Width(limit + 1)),
    }
}

// Runs from the corner in the words until no limit is willing. The words of the tableau are the first of the array; what they are
// afterwards is not said.
fn run_on(
    words: &mut [i64; MOST_WORDS],
    reading: Reading<'_>,
    tray: &mut [i64],
    trail: &mut List<'_, Exchange>,
) -> Result<Reached, Refusal>
    requires corner { SomeCorner reading.counts.shape (take (size reading.counts.shape) words.old) }
    requires tray { tray_size ≤ length tray.old }
    requires empty { contents trail.old ≡ [] }
    ensures room { room_of trail.new ≡ room_of trail.old }
    ensures answer { SolveAnswer reading.entry.counts.shape reading.entry.numbers.now (take (size reading.entry.counts.shape) words.old) tray.old tray.new (room_of trail.old) (contents trail.new) result }
{
    let size = tableau_size(reading.counts);
    let used = &mut words[0..size];
    let ran = run(used, reading, trail);
    conclude(used, reading, ran, tray)
}

// The solve from the corner in the words, which are put back on every way out.
pub fn solve_from(
    words: &mut [i64; MOST_WORDS],
    reading: Reading<'_>,
    tray: &mut [i64],
    trail: &mut List<'_, Exchange>,
) -> Result<Reached, Refusal>
    requires corner { SomeCorner reading.counts.shape (take (size reading.counts.shape) words.old) }
    requires tray { tray_size ≤ length tray.old }
    requires empty { contents trail.old ≡ [] }
    ensures same { words.new ≡ words.old }
    ensures room { room_of trail.new ≡ room_of trail.old }
    ensures answer { SolveAnswer reading.entry.counts.shape reading.entry.numbers.now (take (size reading.entry.counts.shape) words.old) tray.old tray.new (room_of trail.old) (contents trail.new) result }
{
    let guard = Guard::new(words);
    run_on(guard.words, reading, tray, trail)
}
