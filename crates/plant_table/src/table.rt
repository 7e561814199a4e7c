// The numbers of a plant in arrays.
ghost use Rattle.plant_table.specs.Places.{AllValues, AllRowsValues};

use words::bounds::{MOST_COMMANDS, MOST_LIMITS, MOST_READINGS};
use words::counts::Counts;

// A row of coefficients and a row of slopes for each limit; what lies outside the counts means nothing.
// Arrays side by side and no record for each limit: each array holds the answers to one question, as it is asked.
#[derive(Clone, Copy)]
pub struct Table {
    pub(crate) counts: Counts,
    pub(crate) gains: [i32; MOST_COMMANDS],
    pub(crate) coefficients: [[i32; MOST_COMMANDS]; MOST_LIMITS],
    pub(crate) constants: [i32; MOST_LIMITS],
    pub(crate) slopes: [[i32; MOST_READINGS]; MOST_LIMITS],
    ghost gain_values: { AllValues gains },
    ghost coefficient_values: { AllRowsValues coefficients },
    ghost constant_values: { AllValues constants },
    ghost slope_values: { AllRowsValues slopes },
}
