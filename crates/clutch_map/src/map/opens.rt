// Opening a map.
ghost use Rattle.std.specs.Prelude.{◌≡◌, min, [], length, None};
ghost use Rattle.clutch_map.specs.Listed.{most_records};
ghost use Rattle.clutch_map.specs.Views.{state};

use super::{MOST_RECORDS, Map};
use bounded_list::List;
use corner_list::corner::Corner;
use plant_table::table::Table;
use tableau_words::size::MOST_WORDS;

impl<'a> Map<'a> {
    // A map without corners over the records, of which it uses no more than the first `MOST_RECORDS`.
    pub fn open(records: &'a mut [Corner]) -> Map<'a>
        ensures { state result ≡ record { force = None; masks = []; pairs = 0; room = min most_records (length records.old) } }
    {
        let used = records.len().min(MOST_RECORDS);
        Map {
            corners: List::new(&mut records[..used]),
            table: Table::blank(),
            kind: 0,
            words: [0; MOST_WORDS],
            pairs: 0,
        }
    }
}
