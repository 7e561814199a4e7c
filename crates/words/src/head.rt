// What a head says: how many commands, limits and readings the plant has.
ghost use Rattle.std.specs.Prelude.{◌≡◌, MatchOption};
ghost use Rattle.words.specs.Layout.{HeadFits, shape_in, InBounds};

use crate::bounds::{MOST_COMMANDS, MOST_LIMITS, MOST_READINGS};
use crate::counts::{Counts, Shape};

// The spare bits stand below the kind in the top byte, and have so many values.
const SPARE_VALUES: u8 = 16;

impl Counts {
    // The counts, where they are those of a plant.
    pub fn new(shape: Shape) -> Option<Counts>
        ensures { MatchOption result (InBounds shape → ⊥) (λ c. c.shape ≡ shape) }
    {
        if (1..=MOST_COMMANDS).contains(&shape.commands)
            && (1..=MOST_LIMITS).contains(&shape.limits)
            && shape.readings <= MOST_READINGS
        {
            Some(Counts { shape })
        } else {
            None
        }
    }

    // The counts that a head says, where they are those of a plant and the spare bits are 0.
    pub fn in_head(head: u32) -> Option<Counts>
        ensures { MatchOption result (HeadFits head → ⊥) (λ c. HeadFits head × (c.shape ≡ shape_in head)) }
    {
        let [limits, commands, readings, top] = head.to_le_bytes();
        if top % SPARE_VALUES != 0 {
            return None;
        }
        Counts::new(Shape {
            commands: usize::from(commands),
            limits: usize::from(limits),
            readings: usize::from(readings),
        })
    }

    pub fn shape(&self) -> Shape
        ensures { result ≡ self.now.shape }
    {
        self.shape
    }
}
