// The orders of a life.

// One call on a map, and how much of the tray and of the trail it is lent. Orders are data and not closures, since what is stated of a
// life speaks of any list of them.
#[derive(Clone, Copy)]
pub enum Order<'a> {
    // The place of the plant on the shelf, from 0, and the tray's length.
    Start(usize, usize),
    // The reading, the tray's length and the trail's.
    Solve(&'a [i64], usize, usize),
    Grow,
    // The reading and the tray's length.
    Answer(&'a [i64], usize),
}
