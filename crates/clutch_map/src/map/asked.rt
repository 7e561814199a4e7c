// What a solve and an answer ask before they look.
ghost use Rattle.clutch_map.specs.Asked.{AskedAnswer};

use super::Map;
use crate::readings::taken;
use tableau_words::reading::Reading;
use trays::tray::TRAY;
use words::refusal::Refusal;

impl Map<'_> {
    // The reading, if a corner is listed, the plant takes the numbers and the tray is long enough.
    pub(crate) fn asked<'r>(&self, numbers: &'r [i64], tray: &[i64]) -> Result<Reading<'r>, Refusal>
        ensures { AskedAnswer self.now numbers.now tray.now result }
    {
        if self.corners.is_empty() {
            return Err(Refusal::NotBegun);
        }
        let reading = taken(self.table.counts(), numbers)?;
        if tray.len() < TRAY {
            return Err(Refusal::PlaceShort(TRAY));
        }
        Ok(reading)
    }
}
