// Answering from the listed corners.
ghost use Rattle.std.specs.Prelude.{ℕ, List};
ghost use Rattle.corner_runs.specs.declared.exchanges.Exchange.{Exchange as Noted};
ghost use Rattle.map_steps.specs.Steps.{Step, Answer, to_answer};
ghost use Rattle.clutch_map.specs.Views.{seen};

use super::Map;
use corner_list::region::region;
use map_steps::reply::Answered;
use tableau_words::reading::TableauAt;
use tableau_words::size::tableau_size;
use trays::command::command;
use trays::tray::lay;
use words::refusal::{Refusal, Shown};

impl Map<'_> {
    // Lays the command of the first listed corner whose region holds the reading on the tray.
    pub fn answer(&self, reading: &[i64], tray: &mut [i64]) -> Result<Answered, Refusal>
        ensures { (es : List Noted) (most : ℕ) → Step (seen self.now tray.old es most) (seen self.now tray.new es most) (Answer reading.now) (to_answer result) }
    {
        let reading = self.asked(reading, tray)?;
        let corners = self.corners.as_slice();
        let Some(place) = region(corners, reading) else {
            if self.is_finished() {
                return Err(Refusal::NoCommand(Shown::ByMap));
            }
            return Err(Refusal::NotYet);
        };
        let corner = &corners[place];
        let words = &corner.words[..tableau_size(reading.counts)];
        lay(tray, &command(TableauAt { reading, words }));
        Ok(Answered {
            mask: corner.mask,
            place,
        })
    }
}
