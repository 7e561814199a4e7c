// Solving at a reading.
ghost use Rattle.map_steps.specs.Steps.{Step, Solve, to_solve};
ghost use Rattle.clutch_map.specs.Views.{view};

use super::Map;
use bounded_list::List;
use corner_runs::exchanges::Exchange;
use map_steps::reply::Reached;
use words::refusal::Refusal;
use working_tableau::solving::solve_from;

impl Map<'_> {
    // Runs from the first corner to the best command at the reading, and lays it on the tray. The trail notes the exchanges.
    pub fn solve(
        &mut self,
        reading: &[i64],
        tray: &mut [i64],
        trail: &mut List<'_, Exchange>,
    ) -> Result<Reached, Refusal>
        ensures { Step (view self.old tray.old trail.old) (view self.new tray.new trail.new) (Solve reading.now) (to_solve result) }
    {
        let reading = self.asked(reading, tray)?;
        trail.clear();
        solve_from(&mut self.words, reading, tray, trail)
    }
}
