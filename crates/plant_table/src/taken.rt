// A table from a plant of any sort, by its questions.
ghost use Rattle.std.specs.Prelude.{◌≡◌, ℕ, ◌+◌, ◌<◌, ◌≤◌, pos};
ghost use Rattle.exact.specs.Vectors.{entries};
ghost use Rattle.words.specs.Bounds.{most_commands, most_limits, most_readings};
ghost use Rattle.plant.specs.Meaning.{gain_of, coefficient_of, constant_of, slope_of};
ghost use Rattle.plant.specs.Ranged.{or_zero};
ghost use Rattle.tableau.specs.Plants.{commands as commands_of, limits as limits_of};
ghost use Rattle.plant_table.specs.Places.{row, AllRowsValues, Numbers};
ghost use Rattle.plant_table.specs.Tabled.{meaning_of};

use crate::table::Table;
use plant::interface::Plant;
use std::array::from_fn;
use words::bounds::{MOST_COMMANDS, MOST_LIMITS, MOST_READINGS};

// The answers to a question at 1, 2 and on up to `count`, in order, and 0 where there is none; past `count` 0 without a question.
fn numbers<const N: usize, F: Fn(usize) -> Option<i32>>(count: usize, ask: F) -> [i32; N]
    requires { F.IsAlwaysCallable ask }
    ensures answers { (i : ℕ) → i < N → i < count → (o : _) × F.post ask (i + 1) o × (entries result i ≡ or_zero o) }
    ensures zeros { (i : ℕ) → i < N → count ≤ i → entries result i ≡ pos 0 }
{
    from_fn(|place| {
        if place < count {
            ask(place + 1).unwrap_or(0)
        } else {
            0
        }
    })
}

// The gain of each command, and 0 past the last.
fn gains_of<P: Plant>(plant: &P) -> [i32; MOST_COMMANDS]
    ensures { Numbers most_commands (λ i. or_zero (gain_of (P.Plant.meaning plant.now) (i + 1))) result }
{
    let commands = plant.commands();
    numbers(commands, |command| plant.gain(command))
}

// The constant of each limit, and 0 past the last.
fn constants_of<P: Plant>(plant: &P) -> [i32; MOST_LIMITS]
    ensures { Numbers most_limits (λ j. or_zero (constant_of (P.Plant.meaning plant.now) (j + 1))) result }
{
    let limits = plant.limits();
    numbers(limits, |limit| plant.constant(limit))
}

// The coefficients of a limit, which counts from 1; 0 where there is none.
fn coefficient_row<P: Plant>(
    plant: &P,
    limits: usize,
    commands: usize,
    limit: usize,
) -> [i32; MOST_COMMANDS]
    requires { (limits ≡ limits_of (P.Plant.meaning plant.now)) × (commands ≡ commands_of (P.Plant.meaning plant.now)) }
    ensures { Numbers most_commands (λ i. or_zero (coefficient_of (P.Plant.meaning plant.now) limit (i + 1))) result }
{
    if limit <= limits {
        numbers(commands, |command| plant.coefficient(limit, command))
    } else {
        [0; MOST_COMMANDS]
    }
}

// The slopes of a limit, which counts from 1; 0 where there is none.
fn slope_row<P: Plant>(
    plant: &P,
    limits: usize,
    readings: usize,
    limit: usize,
) -> [i32; MOST_READINGS]
    requires { (limits ≡ limits_of (P.Plant.meaning plant.now)) × (readings ≡ (P.Plant.meaning plant.now).readings) }
    ensures { Numbers most_readings (λ k. or_zero (slope_of (P.Plant.meaning plant.now) limit (k + 1))) result }
{
    if limit <= limits {
        numbers(readings, |reading| plant.slope(limit, reading))
    } else {
        [0; MOST_READINGS]
    }
}

// Like `slopes_of` but for the question: as one function it would take the question and its clauses, and be no plainer.
fn coefficients_of<P: Plant>(plant: &P) -> [[i32; MOST_COMMANDS]; MOST_LIMITS]
    ensures rows { (j : ℕ) → j < most_limits → Numbers most_commands (λ i. or_zero (coefficient_of (P.Plant.meaning plant.now) (j + 1) (i + 1))) (row result j) }
    ensures values { AllRowsValues result }
{
    let limits = plant.limits();
    let commands = plant.commands();
    from_fn(
        |limit: usize| -> [i32; MOST_COMMANDS]
            requires bound { limit < most_limits }
            requires counts { (limits ≡ limits_of (P.Plant.meaning plant.now)) × (commands ≡ commands_of (P.Plant.meaning plant.now)) }
            ensures { Numbers most_commands (λ i. or_zero (coefficient_of (P.Plant.meaning plant.entry.now) (limit + 1) (i + 1))) result }
        { coefficient_row(plant, limits, commands, limit + 1) },
    )
}

fn slopes_of<P: Plant>(plant: &P) -> [[i32; MOST_READINGS]; MOST_LIMITS]
    ensures rows { (j : ℕ) → j < most_limits → Numbers most_readings (λ k. or_zero (slope_of (P.Plant.meaning plant.now) (j + 1) (k + 1))) (row result j) }
    ensures values { AllRowsValues result }
{
    let limits = plant.limits();
    let readings = plant.readings();
    from_fn(
        |limit: usize| -> [i32; MOST_READINGS]
            requires bound { limit < most_limits }
            requires counts { (limits ≡ limits_of (P.Plant.meaning plant.now)) × (readings ≡ (P.Plant.meaning plant.now).readings) }
            ensures { Numbers most_readings (λ k. or_zero (slope_of (P.Plant.meaning plant.entry.now) (limit + 1) (k + 1))) result }
        { slope_row(plant, limits, readings, limit + 1) },
    )
}

impl Table {
    // All counts and numbers of a plant, which is asked only inside its counts.
    pub fn of<P: Plant>(plant: &P) -> Table
        ensures { meaning_of result ≡ P.Plant.meaning plant.now }
    {
        Table {
            counts: plant.counts(),
            gains: gains_of(plant),
            coefficients: coefficients_of(plant),
            constants: constants_of(plant),
            slopes: slopes_of(plant),
        }
    }
}
