// How many words a tableau takes.
ghost use Rattle.std.specs.Prelude.{◌≡◌, ◌≤◌};
ghost use Rattle.tableau_words.specs.Layout.{size, most_size};

use words::bounds::{MOST_COMMANDS, MOST_LIMITS, MOST_READINGS};
use words::counts::{Counts, Shape};

// The words of a tableau at the greatest counts.
pub const MOST_WORDS: usize = 1
    + MOST_COMMANDS
    + (MOST_COMMANDS + (1 + MOST_READINGS)) * (1 + MOST_COMMANDS + MOST_LIMITS);

pub fn tableau_size(counts: Counts) -> usize
    ensures value { result ≡ size counts.shape }
    ensures most { result ≤ most_size }
{
    let Shape {
        commands,
        limits,
        readings,
    } = counts.shape();
    1 + commands + (commands + (1 + readings)) * (1 + commands + limits)
}
