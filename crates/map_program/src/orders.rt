// The orders of the program to its map.
ghost use Rattle.std.specs.Prelude.{◌≡◌, ◌+◌, ◌*◌, ◌≤◌, length, IfOk, vec_len};

use life::order::Order;
use script::groups::Groups;
use std::alloc::{AllocError, Global};
use trays::tray::TRAY;

// The only plant stands first on its shelf.
const PLANT: usize = 0;

// A start, so many grows, and a solve for each group of the readings, without a trail.
pub(crate) fn orders<'a>(
    alloc: Global,
    grows: usize,
    groups: Groups,
    readings: &'a [i64],
) -> Result<Vec<Order<'a>>, AllocError>
    requires { groups.count * groups.each ≤ length readings.now }
    ensures { IfOk result (λ v. vec_len v ≡ 1 + grows + groups.count) }
{
    let mut orders = Vec::new(alloc);
    orders.push(Order::Start(PLANT, TRAY))?;
    for _ in 0..grows {
        orders.push(Order::Grow)?;
    }
    // By number: a plant without readings has one group, which is empty, and no chunks of a slice are.
    for g in 0..groups.count {
        let begin = g * groups.each;
        orders.push(Order::Solve(&readings[begin..begin + groups.each], TRAY, 0))?;
    }
    Ok(orders)
}
