// A whole life of a map.
ghost use Rattle.std.specs.Prelude.{◌≡◌, ℕ, ◌<◌, [], length};
ghost use Rattle.exact.specs.Vectors.{entries};
ghost use Rattle.trays.specs.Trays.{tray_size};
ghost use Rattle.clutch_map.specs.Views.{seen};
ghost use Rattle.life.specs.Lives.{MakesSense, SenseAnswer, Carried, Lived};

use crate::entry::Entry;
use crate::order::Order;
use crate::shelf::Shelf;
use bounded_list::List;
use clutch_map::map::Map;
use corner_list::corner::Corner;
use corner_runs::exchanges::Exchange;
use map_steps::reply::{Done, Reply};
use trays::tray::TRAY;

// The first numbers of the tray, with zeros after them where the tray is shorter.
fn shown(tray: &[i64]) -> [i64; TRAY]
    ensures { (i : ℕ) → i < tray_size → i < length tray.now → entries result i ≡ entries tray.now i }
{
    let mut first = [0; TRAY];
    let n = tray.len().min(TRAY);
    first[..n].copy_from_slice(&tray[..n]);
    first
}

// Whether the order names a plant of the shelf, or needs none.
fn makes_sense<S: Shelf>(shelf: &S, order: Order<'_>) -> bool
    ensures { SenseAnswer (S.Shelf.plants shelf.now) order.entry result }
{
    match order {
        Order::Start(place, _) => shelf.has(place),
        Order::Solve(..) | Order::Grow | Order::Answer(..) => true,
    }
}

// Carries one order out.
fn carry_out<S: Shelf>(
    shelf: &S,
    order: Order<'_>,
    map: &mut Map<'_>,
    tray: &mut [i64],
    trail: &mut [Exchange],
) -> Reply
    requires { MakesSense (S.Shelf.plants shelf.now) order }
    ensures { Carried (S.Shelf.plants shelf.now) (seen map.old tray.old [] (length trail.old)) (seen map.new tray.new [] (length trail.old)) order.entry result }
{
    match order {
        Order::Start(place, lent) => {
            let n = lent.min(tray.len());
            let started = shelf.start(place, map, &mut tray[..n]).unwrap();
            started.map(Done::Start)
        }
        Order::Solve(reading, lent, notes) => {
            let n = lent.min(tray.len());
            let l = notes.min(trail.len());
            let mut noted = List::new(&mut trail[..l]);
            map.solve(reading, &mut tray[..n], &mut noted)
                .map(Done::Solve)
        }
        Order::Grow => map.grow().map(Done::Grow),
        Order::Answer(reading, lent) => {
            let n = lent.min(tray.len());
            map.answer(reading, &mut tray[..n]).map(Done::Answer)
        }
    }
}

// Opens a map over the records and carries the orders out, as far as the log has room; answers how many. The log has the reply to each,
// with the tray.
pub fn live<S: Shelf>(
    shelf: &S,
    orders: &[Order<'_>],
    records: &mut [Corner],
    tray: &mut [i64],
    trail: &mut [Exchange],
    log: &mut [Entry],
) -> usize
    ensures { Lived (S.Shelf.plants shelf.now) orders.now (length records.old) tray.old tray.new (length trail.old) log.old log.new result }
{
    let mut map = Map::open(records);
    // By the log alone, with its place: after a zip with the orders nothing would be known of the log.
    for (k, entry) in log.iter_mut().enumerate() {
        let Some(order) = orders.get(k) else {
            return k;
        };
        if !makes_sense(shelf, *order) {
            return k;
        }
        let reply = carry_out(shelf, *order, &mut map, tray, trail);
        *entry = Entry {
            reply,
            tray: shown(tray),
        };
    }
    log.len()
}
