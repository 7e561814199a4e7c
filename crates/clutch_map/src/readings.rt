// Readings that a plant takes.
ghost use Rattle.std.specs.Prelude.{◌≡◌, Decides, IfOk};
ghost use Rattle.map_steps.specs.ReadingFaults.{InRange};
ghost use Rattle.clutch_map.specs.Faults.{FaultAnswer};

use tableau_words::reading::Reading;
use words::counts::Counts;
use words::refusal::Refusal;

// The largest size of a reading.
pub const LARGEST_READING: i64 = 30_000;

fn is_in_range(number: i64) -> bool
    ensures { Decides result (InRange number) }
{
    (-LARGEST_READING..=LARGEST_READING).contains(&number)
}

// The numbers as a reading for the counts. Refused at the place of the first fault: 0 for another number of readings, else which is
// out of range, from 1.
pub(crate) fn taken(counts: Counts, numbers: &[i64]) -> Result<Reading<'_>, Refusal>
    ensures fault { FaultAnswer counts.shape.readings numbers.now result }
    ensures counts { IfOk result (λ reading. reading.counts ≡ counts) }
    ensures numbers { IfOk result (λ reading. reading.numbers.now ≡ numbers.now) }
{
    if numbers.len() != counts.shape().readings {
        return Err(Refusal::Reading(0));
    }
    match numbers.iter().position(|number| !is_in_range(*number)) {
        Some(place) => Err(Refusal::Reading(place + 1)),
        None => Ok(Reading { counts, numbers }),
    }
}
