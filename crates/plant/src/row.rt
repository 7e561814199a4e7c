// Which limit of a ranged plant stands at a place: one of the plant below, or the high or the low of a command (from 0).
// Three cases, so no Option.
#[derive(Clone, Copy)]
pub(crate) enum Row {
    Kept,
    AtMost(usize),
    AtLeast(usize),
}
