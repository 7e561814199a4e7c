// Where the reader of a plant's words stands.
use crate::counts::Counts;

// Each state waits for a word of one kind. It has what the head says, how many words of that kind are still to come in a
// row, and within a limit how many limits are still to come, this one included.
#[derive(Clone, Copy)]
pub(crate) enum State {
    Head,
    Gain(Counts, usize),
    Coefficient(Counts, usize, usize),
    Constant(Counts, usize),
    Slope(Counts, usize, usize),
    Close(Counts),
    // The close has been read.
    Done(Counts),
}
