// The plant that the input describes.
ghost use Rattle.std.specs.Prelude.{◌+◌, ◌*◌, ◌≤◌, length, OnOk};
ghost use Rattle.input.specs.Split.{RangeFollows};
ghost use Rattle.input.specs.Judged.{TableVerdict, Judged};

use crate::split::{plant_end, range_follows, range_numbers};
use plant::interface::Plant;
use plant::load::load;
use plant::range::range;
use plant::range_table::RangeTable;
use plant::ranged::Ranged;
use plant::written::Written;
use words::counts::Shape;
use words::refusal::Refusal;

// The lows and highs behind the words of a plant, judged for the plant. A place past the words is taken as their end, where the first low is missing.
pub fn ranges<P: Plant>(words: &[u32], end: usize, plant: &P) -> Result<RangeTable, Refusal>
    ensures verdict { RangeFollows words.now end → TableVerdict words.now end (P.Plant.meaning plant.now) result }
    ensures within { OnOk result (end + 2 * length (P.Plant.meaning plant.now).gains ≤ length words.now) }
{
    let commands = plant.commands();
    let numbers = range_numbers(words, end.min(words.len()), 2 * commands)?;
    range(
        plant,
        &numbers[0..commands],
        &numbers[commands..2 * commands],
    )
}

// Loads the plant and lays its ranges over it: the counts of what was accepted.
pub fn judge(words: &[u32]) -> Result<Shape, Refusal>
    ensures { Judged words.now result }
{
    let end = plant_end(words);
    let plant_words = &words[0..end];
    let counts = load(plant_words)?;
    let plant = Written::new(plant_words, counts);
    if !range_follows(words, end) {
        return Ok(plant.counts().shape());
    }
    let table = ranges(words, end, &plant)?;
    Ok(Ranged::new(plant, table).counts().shape())
}
