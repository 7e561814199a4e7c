// Lows and highs are judged before they lie over a plant.
ghost use Rattle.std.specs.Prelude.{◌≡◌, ℕ, ◌<◌, ◌≤◌, length, pos, MatchOption, MatchResult, slice_index_or};
ghost use Rattle.words.specs.Bounds.{most_commands};
ghost use Rattle.plant.specs.Ranges.{ValuesBefore, FirstNotValue, InOrder, RangesFit, RangeFaulty};
ghost use Rattle.plant.specs.Ranged.{RangeAnswer, Tabled};

use crate::interface::Plant;
use crate::range_table::RangeTable;
use words::bounds::{MOST_COMMANDS, MOST_LIMITS, is_value};
use words::counts::Counts;
use words::refusal::Refusal;

// The place of the first number out of bounds.
fn first_not_value(numbers: &[i32]) -> Option<usize>
    ensures { MatchOption result (ValuesBefore numbers.now (length numbers.now)) (FirstNotValue numbers.now) }
{
    numbers.iter().position(|number| !is_value(*number))
}

// The first command whose low is above its high.
fn first_crossed(lows: &[i32], highs: &[i32]) -> Option<usize>
    requires { length highs.now ≡ length lows.now }
    ensures { MatchOption result ((i : ℕ) → i < length lows.now → InOrder lows.now highs.now i) (λ k. (k < length lows.now) × (InOrder lows.now highs.now k → ⊥) × ((i : ℕ) → i < k → InOrder lows.now highs.now i)) }
{
    lows.iter()
        .zip(highs.iter())
        .position(|(low, high)| low > high)
}

// The numbers, with zeros after them. The library has no heap, so they are copied into an array of fixed room.
fn padded(numbers: &[i32]) -> [i32; MOST_COMMANDS]
    requires few { length numbers.now ≤ most_commands }
    requires values { ValuesBefore numbers.now (length numbers.now) }
    ensures same { (i : ℕ) → i < length numbers.now → slice_index_or result i (pos 0) ≡ slice_index_or numbers.now i (pos 0) }
    ensures values { ValuesBefore result most_commands }
{
    let mut all = [0; MOST_COMMANDS];
    all[..numbers.len()].copy_from_slice(numbers);
    all
}

// Judges lows and highs for a plant with these counts.
fn judge(counts: Counts, lows: &[i32], highs: &[i32]) -> Result<RangeTable, Refusal>
    ensures { MatchResult result (Tabled counts.shape lows.now highs.now) (RangeFaulty lows.now highs.now counts.shape) }
{
    if let Some(k) = first_not_value(lows) {
        return Err(Refusal::Value(k + 1));
    }
    if let Some(k) = first_not_value(highs) {
        return Err(Refusal::Value(k + 1));
    }
    let shape = counts.shape();
    let commands = shape.commands;
    if lows.len() != commands
        || highs.len() != commands
        || shape.limits + 2 * commands > MOST_LIMITS
    {
        return Err(Refusal::Range(0));
    }
    if let Some(k) = first_crossed(lows, highs) {
        return Err(Refusal::Range(k + 1));
    }
    Ok(RangeTable {
        counts,
        lows: padded(lows),
        highs: padded(highs),
    })
}

// Judges lows and highs over a plant. With the table that it answers, `Ranged::new` makes the plant with these ranges.
pub fn range<P: Plant>(below: &P, lows: &[i32], highs: &[i32]) -> Result<RangeTable, Refusal>
    ensures { RangeAnswer (P.Plant.meaning below.now) lows.now highs.now result }
{
    judge(below.counts(), lows, highs)
}
