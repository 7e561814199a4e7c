// A map: its fields, and what always holds of them.
ghost use Rattle.std.specs.Prelude.{◌≤◌};
ghost use Rattle.bounded_list.specs.Contents.{contents, room};
ghost use Rattle.plant_table.specs.Tabled.{meaning_of};
ghost use Rattle.corner_list.specs.Records.{AllRecords};
ghost use Rattle.clutch_map.specs.Listed.{most_records, AtFirst};

use bounded_list::List;
use corner_list::corner::Corner;
use plant_table::table::Table;
use tableau_words::size::MOST_WORDS;

mod answers;
mod asked;
mod grows;
mod opens;
mod pairs;
mod solves;
mod starts;

// The most records that a map uses.
pub const MOST_RECORDS: usize = 256;

// The listed corners; the numbers and the kind of the plant in force; the working tableau, which is that of the first corner between
// calls, in an array, since the library has no heap; and how many pairs have been examined.
#[derive(Drop)]
pub struct Map<'a> {
    corners: List<'a, Corner>,
    table: Table,
    kind: u16,
    words: [i64; MOST_WORDS],
    pairs: usize,
    ghost few: { room corners ≤ most_records },
    ghost records: { AllRecords (meaning_of table) (contents corners) },
    ghost first: { AtFirst (contents corners) words },
}
