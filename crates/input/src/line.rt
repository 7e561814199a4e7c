// The line that the program prints.
ghost use Rattle.std.specs.Prelude.{Some};
ghost use Rattle.input.specs.Lines.{line_of};

use std::fmt;
use words::counts::Shape;
use words::refusal::Refusal;

// `plant M N D` with the counts of what was accepted, or `none NUMBER LAYER PLACE` of a refusal.
#[derive(Drop)]
pub struct Line {
    pub verdict: Result<Shape, Refusal>,
}

impl fmt::Display for Line {
    ghost output = { λ l. Some (line_of l.verdict) };

    fn fmt<W: fmt::Write>(&self, f: &mut fmt::Formatter<W>) -> fmt::Result {
        match self.verdict {
            Ok(
                Shape {
                    commands,
                    limits,
                    readings,
                },
            ) => write!(f, "plant {commands} {limits} {readings}"),
            Err(refusal) => write!(f, "none {refusal}"),
        }
    }
}
