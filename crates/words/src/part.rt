// The parts of a plant's words, each a part of the caller's words, with the place of its first word.
#[derive(Drop)]
pub enum Part<'a> {
    Head(&'a [u32], usize),
    Gains(&'a [u32], usize),
    // The coefficients, the constant and the slopes of one limit.
    Limit(&'a [u32], usize),
    Close(&'a [u32], usize),
}
