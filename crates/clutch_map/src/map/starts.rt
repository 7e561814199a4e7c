// Starting a map with a plant.
ghost use Rattle.std.specs.Prelude.{ℕ, List};
ghost use Rattle.corner_runs.specs.declared.exchanges.Exchange.{Exchange as Noted};
ghost use Rattle.map_steps.specs.Steps.{Step, Start, to_start};
ghost use Rattle.clutch_map.specs.Views.{seen};

use super::Map;
use corner_list::corner::Corner;
use map_steps::reply::Reached;
use plant::interface::Plant;
use plant_table::table::Table;
use trays::tray::TRAY;
use words::refusal::Refusal;
use working_tableau::starting::find_first;

impl Map<'_> {
    // Takes the plant's numbers into the map and lists its first corner.
    pub fn start<P: Plant>(&mut self, plant: &P, tray: &mut [i64]) -> Result<Reached, Refusal>
        ensures { (es : List Noted) (most : ℕ) → Step (seen self.old tray.old es most) (seen self.new tray.new es most) (Start P.Plant.kind (P.Plant.meaning plant.now)) (to_start result) }
    {
        if !self.corners.is_empty() {
            return Err(Refusal::Begun);
        }
        if tray.len() < TRAY {
            return Err(Refusal::PlaceShort(TRAY));
        }
        if self.corners.is_full() {
            return Err(Refusal::Full(0));
        }
        self.table = Table::of(plant);
        self.kind = P::kind_number();
        let started = find_first(&self.table, &mut self.words, tray)?;
        let corner = Corner {
            mask: started.mask,
            words: self.words,
        };
        self.corners.push(corner).unwrap();
        self.pairs = 0;
        Ok(started)
    }
}
