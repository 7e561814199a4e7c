// Growing the map by one pair.
ghost use Rattle.std.specs.Prelude.{ℕ, List, ℤ};
ghost use Rattle.corner_runs.specs.declared.exchanges.Exchange.{Exchange as Noted};
ghost use Rattle.map_steps.specs.Steps.{Step, Grow, to_grow};
ghost use Rattle.clutch_map.specs.Views.{seen};

use super::Map;
use corner_list::corner::Corner;
use corner_list::lists::lists;
use corner_list::outside::outside;
use map_steps::reply::Grown;
use tableau_words::size::tableau_size;
use tableau_words::view::Tableau;
use words::refusal::Refusal;
use working_tableau::crossing::{cross, left_by, mask_across};

impl Map<'_> {
    // Examines the pair that is due: a listed corner, and a limit outside it. The corner across is listed if it is new.
    pub fn grow(&mut self) -> Result<Grown, Refusal>
        ensures { (tray : List ℤ) (es : List Noted) (most : ℕ) → Step (seen self.old tray es most) (seen self.new tray es most) Grow (to_grow result) }
    {
        if self.corners.is_empty() {
            return Err(Refusal::NotBegun);
        }
        if self.is_finished() {
            return Ok(Grown::Finished);
        }
        let counts = self.table.counts();
        let each = self.pairs_each();
        let corner = self.corners.get(self.pairs / each).unwrap();
        let limit = outside(corner.mask, counts.shape().limits, self.pairs % each).unwrap();
        let words = &corner.words[..tableau_size(counts)];
        let Some(left) = left_by(Tableau { counts, words }, limit) else {
            self.pairs += 1;
            return Ok(Grown::Nothing);
        };
        let mask = mask_across(corner.mask, limit, left);
        if lists(self.corners.as_slice(), mask) {
            self.pairs += 1;
            return Ok(Grown::Nothing);
        }
        if self.corners.is_full() {
            return Err(Refusal::Full(limit + 1));
        }
        let Ok(words) = cross(&mut self.words, &corner.words, counts, limit) else {
            return Err(Refusal::Width(limit + 1));
        };
        self.corners.push(Corner { mask, words }).unwrap();
        self.pairs += 1;
        Ok(Grown::Listed)
    }
}
