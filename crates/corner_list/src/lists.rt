// Masks of listed corners.
ghost use Rattle.corner_list.specs.Lists.{ListsAnswer};

use crate::corner::Corner;

// Whether a record has the mask.
pub fn lists(corners: &[Corner], mask: u32) -> bool
    ensures { ListsAnswer corners.now mask result }
{
    corners.iter().any(|corner| corner.mask == mask)
}
