// The run of a solve.
ghost use Rattle.std.specs.Prelude.{◌≡◌, []};
ghost use Rattle.bounded_list.specs.Contents.{contents, room as room_of};
ghost use Rattle.corner_runs.specs.Answers.{SomeCorner, RunAnswer};

use crate::exchanges::Exchange;
use bounded_list::List;
use corner_words::enter::{NotEntered, enter};
use tableau_words::reading::Reading;

// Why a run ended where a limit is still willing, the least of which counts from 0.
#[derive(Clone, Copy, PartialEq, Eq, Debug)]
pub enum Unsettled {
    // It finds no row to leave.
    NoRow(usize),
    // The tableau after it has entered is out of width.
    OutOfWidth(usize),
}

// How a run ended, well where no limit is willing, and how many exchanges led there. `Searched` is like it but for its error: one type
// over the error would name neither.
#[derive(Clone, Copy)]
pub struct Ran {
    pub end: Result<(), Unsettled>,
    pub exchanges: u32,
}

// Lets the least willing limit enter until none is. The trail notes each exchange while it has room.
pub fn run(words: &mut [i64], reading: Reading<'_>, trail: &mut List<'_, Exchange>) -> Ran
    requires corner { SomeCorner reading.counts.shape words.old }
    requires empty { contents trail.old ≡ [] }
    ensures room { room_of trail.new ≡ room_of trail.old }
    ensures run { RunAnswer reading.entry.counts.shape reading.entry.numbers.now words.old words.new (room_of trail.old) (contents trail.new) result }
{
    let mut exchanges = 0;
    while let Some(limit) = reading.over(words).least_willing() {
        match enter(words, reading.counts, limit) {
            Ok(left) => {
                let _ = trail.push(Exchange {
                    entering: limit + 1,
                    leaving: left + 1,
                });
                exchanges += 1;
            }
            Err(NotEntered::NoRow) => {
                return Ran {
                    end: Err(Unsettled::NoRow(limit)),
                    exchanges,
                };
            }
            Err(NotEntered::OutOfWidth) => {
                return Ran {
                    end: Err(Unsettled::OutOfWidth(limit)),
                    exchanges,
                };
            }
        }
    }
    Ran {
        end: Ok(()),
        exchanges,
    }
}
