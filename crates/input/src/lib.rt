// What the program makes of its input: bytes to words, words to a plant and its ranges.
#![tactic(auto)]

pub mod bytes;
pub mod judge;
pub mod laws;
pub mod line;
pub mod split;
#[cfg(test)]
mod tests;
