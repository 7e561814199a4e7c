// How many pairs there are, and whether one is left.
ghost use Rattle.std.specs.Prelude.{◌≡◌, ◌*◌, ◌≤◌, length, nat_le};
ghost use Rattle.words.specs.Bounds.{most_limits};
ghost use Rattle.bounded_list.specs.Contents.{contents};
ghost use Rattle.plant_table.specs.Tabled.{meaning_of};
ghost use Rattle.map_steps.specs.Pairs.{pairs_each};

use super::Map;

impl Map<'_> {
    // The pairs of each listed corner: the limits outside its basis. A plant of more commands than limits has none, and no corner.
    pub(crate) fn pairs_each(&self) -> usize
        ensures number { result ≡ pairs_each (meaning_of self.now.table) }
        ensures most { result ≤ most_limits }
    {
        let shape = self.table.counts().shape();
        shape.limits.saturating_sub(shape.commands)
    }

    // Whether every pair of the listed corners has been examined.
    pub(crate) fn is_finished(&self) -> bool
        ensures { result ≡ nat_le (length (contents self.now.corners) * pairs_each (meaning_of self.now.table)) self.now.pairs }
    {
        self.corners.len() * self.pairs_each() <= self.pairs
    }
}
