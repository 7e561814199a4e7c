// The region of a reading.
ghost use Rattle.corner_list.specs.Regions.{AllReadable, RegionAnswer};

use crate::corner::Corner;
use tableau_words::reading::{Reading, TableauAt};
use tableau_words::size::tableau_size;

// The place, from 0, of the first record whose region holds the reading.
pub fn region(corners: &[Corner], reading: Reading<'_>) -> Option<usize>
    requires { AllReadable reading.counts.shape corners.now }
    ensures { RegionAnswer reading.entry.counts.shape reading.entry.numbers.now corners.now result }
{
    let size = tableau_size(reading.counts);
    let limits = reading.counts.shape().limits;
    // A corner goes by its place, which is the answer, and is left at the first limit with a negative slack.
    'corners: for place in 0..corners.len() {
        let tableau = TableauAt {
            reading,
            words: &corners[place].words[..size],
        };
        for limit in 0..limits {
            if tableau.slack(limit) < 0 {
                continue 'corners;
            }
        }
        return Some(place);
    }
    None
}
