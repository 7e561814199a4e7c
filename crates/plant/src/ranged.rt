// The ranged plant: a low and a high for each command over a plant of any sort.
ghost use Rattle.std.specs.Prelude.{◌≡◌};

use crate::range_table::RangeTable;

// The plant below, and the ranges over it.
#[derive(Drop)]
pub struct Ranged<P> {
    pub(crate) below: P,
    pub(crate) table: RangeTable,
}

impl<P> Ranged<P> {
    // Lays the ranges over the plant.
    pub fn new(below: P, table: RangeTable) -> Ranged<P>
        ensures below { result.below ≡ below }
        ensures table { result.table ≡ table }
    {
        Ranged { below, table }
    }
}
