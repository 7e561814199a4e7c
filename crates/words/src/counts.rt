// The counts of a plant.
ghost use Rattle.words.specs.Bounds.{Counted};

// How many commands, limits and readings a head says.
#[derive(Clone, Copy, PartialEq, Eq, Debug)]
pub struct Shape {
    pub commands: usize,
    pub limits: usize,
    pub readings: usize,
}

// The counts of a plant: a shape in bounds.
#[derive(Clone, Copy, PartialEq, Eq, Debug)]
pub struct Counts {
    pub(crate) shape: Shape,
    ghost fit: { Counted shape.commands shape.limits shape.readings },
}
