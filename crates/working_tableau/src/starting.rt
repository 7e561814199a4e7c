// The first corner of a plant, found on the working tableau. The tray is a slice of the caller, which may be longer than
// what is laid on it, so that it is long enough is a clause.
ghost use Rattle.std.specs.Prelude.{◌≡◌, ◌≤◌, true, false, length, take};
ghost use Rattle.plant.specs.Meaning.{shape_of};
ghost use Rattle.plant_table.specs.Tabled.{meaning_of};
ghost use Rattle.tableau_words.specs.Layout.{size, most_size};
ghost use Rattle.corner_words.specs.Reads.{OwnLimits};
ghost use Rattle.trays.specs.Trays.{tray_size};
ghost use Rattle.working_tableau.specs.Starts.{SomeArtificial, KeptSearch, StartConclusion, FirstCorner};

use corner_runs::search::{OutOfWidthAt, Searched, search};
use corner_words::read::mask;
use first_tableau::fill::fill;
use map_steps::reply::Reached;
use plant_table::table::Table;
use tableau_words::size::{MOST_WORDS, tableau_size};
use tableau_words::view::Tableau;
use trays::direction::direction;
use trays::tray::lay;
use words::counts::{Counts, Shape};
use words::refusal::Refusal;

// Whether some row belongs to an artificial limit.
fn artificial_left(tableau: Tableau<'_>) -> bool
    ensures { elim result [ true ↦ SomeArtificial tableau.entry.counts.shape tableau.entry.words.now | false ↦ OwnLimits tableau.entry.counts.shape tableau.entry.words.now ] }
{
    let Shape {
        commands,
        limits,
        ..
    } = tableau.counts.shape();
    tableau.words[1..1 + commands]
        .iter()
        .any(|limit| *limit >= limits as i64)
}

// Tells the end of a search: the first corner, or that there is no best, with the direction that shows it on the tray.
// Words and no tableau: after a search that ended out of width they need be none.
fn conclude_start(
    words: &[i64],
    counts: Counts,
    searched: Searched,
    tray: &mut [i64],
) -> Result<Reached, Refusal>
    requires corner { KeptSearch counts.shape words.now searched.end }
    requires tray { tray_size ≤ length tray.old }
    ensures { StartConclusion counts.shape words.now tray.old tray.new searched result }
{
    match searched.end {
        Err(OutOfWidthAt(limit)) => Err(Refusal::Width(limit + 1)),
        Ok(()) => {
            let tableau = Tableau { counts, words };
            if artificial_left(tableau) {
                lay(tray, &direction(tableau));
                return Err(Refusal::NoBest);
            }
            Ok(Reached {
                mask: mask(tableau),
                exchanges: searched.exchanges,
            })
        }
    }
}

// Searches for a corner of the plant from the basis of all artificial limits. Found, its tableau is in the first words of the array.
pub fn find_first(
    table: &Table,
    words: &mut [i64; MOST_WORDS],
    tray: &mut [i64],
) -> Result<Reached, Refusal>
    requires tray { tray_size ≤ length tray.old }
    ensures long { length words.new ≡ most_size }
    ensures corner { FirstCorner (meaning_of table.now) (take (size (shape_of (meaning_of table.now))) words.new) tray.old tray.new result }
{
    let counts = table.counts();
    let size = tableau_size(counts);
    let used = &mut words[0..size];
    fill(table, used);
    let searched = search(used, counts);
    conclude_start(used, counts, searched, tray)
}
