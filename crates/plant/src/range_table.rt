// The numbers of a ranged plant.
ghost use Rattle.std.specs.Prelude.{◌+◌, ◌*◌, ◌≤◌};
ghost use Rattle.words.specs.Bounds.{most_commands, most_limits};
ghost use Rattle.plant.specs.Ranges.{ValuesBefore};

use words::bounds::MOST_COMMANDS;
use words::counts::Counts;

// The counts of the plant below that were checked, and a low and a high for each command.
#[derive(Clone, Copy)]
pub struct RangeTable {
    pub(crate) counts: Counts,
    pub(crate) lows: [i32; MOST_COMMANDS],
    pub(crate) highs: [i32; MOST_COMMANDS],
    ghost room: { counts.shape.limits + 2 * counts.shape.commands ≤ most_limits },
    ghost low_values: { ValuesBefore lows most_commands },
    ghost high_values: { ValuesBefore highs most_commands },
}
