// The interface of every sort of plant.
ghost use Rattle.std.specs.Prelude.{◌≡◌, ℕ, ◌≤◌, length};
ghost use Rattle.plant.specs.Meaning.{Meaning, Bounded, shape_of, gain_of, coefficient_of, constant_of, slope_of};

use words::counts::{Counts, Shape};

// A plant answers each question from its meaning. Commands, limits and readings count from 1; a number outside the counts is
// absent.
pub trait Plant {
    // The number of the sort of plant.
    const KIND: u16;

    // The same number for the contracts. A ghost `KIND` would say it too, but with that the proof for `Written<'_>` did not close.
    ghost kind: { ℕ };

    ghost meaning: { Self → Meaning };

    fn kind_number() -> u16
        ensures { result ≡ kind };

    fn commands(&self) -> usize
        ensures { result ≡ length (meaning self.now).gains };

    fn limits(&self) -> usize
        ensures { result ≡ length (meaning self.now).limits };

    fn readings(&self) -> usize
        ensures { result ≡ (meaning self.now).readings };

    // The gain of command i.
    fn gain(&self, i: usize) -> Option<i32>
        ensures { result ≡ gain_of (meaning self.now) i };

    // The coefficient of command i in limit j.
    fn coefficient(&self, j: usize, i: usize) -> Option<i32>
        ensures { result ≡ coefficient_of (meaning self.now) j i };

    // The constant of limit j.
    fn constant(&self, j: usize) -> Option<i32>
        ensures { result ≡ constant_of (meaning self.now) j };

    // The slope of reading k in limit j.
    fn slope(&self, j: usize, k: usize) -> Option<i32>
        ensures { result ≡ slope_of (meaning self.now) j k };

    ghost kind_fits: { (1 ≤ kind) × (kind ≤ 32767) };

    ghost bounded: { (p : Self) → Bounded (meaning p) };

    // How many commands, limits and readings it has.
    final fn counts(&self) -> Counts
        ensures { result.shape ≡ shape_of (meaning self.now) }
    {
        let shape = Shape {
            commands: self.commands(),
            limits: self.limits(),
            readings: self.readings(),
        };
        Counts::new(shape).unwrap()
    }
}
