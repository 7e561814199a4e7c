// The numbers of a table, by their places from 0.
ghost use Rattle.std.specs.Prelude.{◌≡◌, ◌<◌, ◌≤◌};
ghost use Rattle.exact.specs.Vectors.{entries};
ghost use Rattle.words.specs.Bounds.{Value};
ghost use Rattle.words.specs.Layout.{InBounds};
ghost use Rattle.plant.specs.Meaning.{shape_of};
ghost use Rattle.plant.specs.Commands.{column};
ghost use Rattle.tableau.specs.Plants.{commands, limits, rate};
ghost use Rattle.plant_table.specs.Tabled.{meaning_of, blank};

use crate::table::Table;
use words::bounds::{MOST_COMMANDS, MOST_LIMITS, MOST_READINGS};
use words::counts::{Counts, Shape};

impl Table {
    // A table for a map that no plant was given to yet.
    pub fn blank() -> Table
        ensures { meaning_of result ≡ blank }
    {
        let smallest = Shape {
            commands: 1,
            limits: 1,
            readings: 0,
        };
        Table {
            counts: Counts::new(smallest).unwrap(),
            gains: [0; MOST_COMMANDS],
            coefficients: [[0; MOST_COMMANDS]; MOST_LIMITS],
            constants: [0; MOST_LIMITS],
            slopes: [[0; MOST_READINGS]; MOST_LIMITS],
        }
    }

    pub fn counts(&self) -> Counts
        ensures { result.shape ≡ shape_of (meaning_of self.now) }
    {
        self.counts
    }

    // The numbers of the counts, for those who only want these.
    pub fn shape(&self) -> Shape
        ensures counts { result ≡ shape_of (meaning_of self.now) }
        ensures bounds { InBounds result }
    {
        let counts = self.counts;
        counts.shape()
    }

    pub fn gain(&self, command: usize) -> i64
        requires { command < commands (meaning_of self.now) }
        ensures number { result ≡ entries (meaning_of self.now).gains command }
        ensures value { Value result }
    {
        i64::from(self.gains[command])
    }

    pub fn coefficient(&self, limit: usize, command: usize) -> i64
        requires limit { limit < limits (meaning_of self.now) }
        requires command { command < commands (meaning_of self.now) }
        ensures number { result ≡ column (meaning_of self.now) limit command }
        ensures value { Value result }
    {
        i64::from(self.coefficients[limit][command])
    }

    // The constant of a limit for k = 0, and its slope for reading k, which counts from 1.
    pub fn rate(&self, k: usize, limit: usize) -> i64
        requires reading { k ≤ (meaning_of self.now).readings }
        requires limit { limit < limits (meaning_of self.now) }
        ensures number { result ≡ rate (meaning_of self.now) k limit }
        ensures value { Value result }
    {
        if k == 0 {
            i64::from(self.constants[limit])
        } else {
            i64::from(self.slopes[limit][k - 1])
        }
    }
}
