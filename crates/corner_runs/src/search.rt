// The search for a first corner.
ghost use Rattle.corner_runs.specs.Answers.{SomeSearch, SearchAnswer};

use crate::stopping::least_stopping;
use corner_words::enter::{NotEntered, enter};
use tableau_words::view::Tableau;
use words::counts::Counts;

// The tableau after this limit, from 0, has entered is out of width.
#[derive(Clone, Copy, PartialEq, Eq, Debug)]
pub struct OutOfWidthAt(pub usize);

// How a search ended, well where no limit stops the direction Y, and how many exchanges led there.
#[derive(Clone, Copy)]
pub struct Searched {
    pub end: Result<(), OutOfWidthAt>,
    pub exchanges: u32,
}

// Lets the least limit that stops the direction Y enter until none does.
pub fn search(words: &mut [i64], counts: Counts) -> Searched
    requires { SomeSearch counts.shape words.old }
    ensures { SearchAnswer counts.shape words.old words.new result }
{
    let mut exchanges = 0;
    while let Some(limit) = least_stopping(Tableau { counts, words }) {
        match enter(words, counts, limit) {
            Ok(_left) => exchanges += 1,
            Err(NotEntered::NoRow) => unreachable!(),
            Err(NotEntered::OutOfWidth) => {
                return Searched {
                    end: Err(OutOfWidthAt(limit)),
                    exchanges,
                };
            }
        }
    }
    Searched {
        end: Ok(()),
        exchanges,
    }
}
