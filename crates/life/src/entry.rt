// What is logged of a call.
use map_steps::reply::Reply;
use trays::tray::TRAY;

// The reply, and the first numbers of the tray after the call, in an array, since the library has no heap.
#[derive(Clone, Copy)]
pub struct Entry {
    pub reply: Reply,
    pub tray: [i64; TRAY],
}
